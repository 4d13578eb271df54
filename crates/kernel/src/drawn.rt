// One drawn order of rows, on lent memory.
ghost use Rattle.std.specs.Prelude.{length};
ghost use Rattle.kernel.specs.Jobs.{sizes_of};
ghost use Rattle.kernel.specs.Drawn.{DrawnPost};
ghost use Rattle.kernel.specs.Outcome.{IsWhole};

use crate::draw::Draw;
use crate::job::{Job, Lent, Refused};
use crate::order::run_order;
use machine::{Engine, Script};

// Runs a job in an order that is drawn, and says whether two threads clashed on the way. The memory is then
// as the order left it, and each thread has its state: 2 ended, 3 out of turns.
pub fn draw_order<'a>(
    job: Job<'a>,
    memory: &'a mut [u32],
    states: &mut [u8],
    lent: Lent<'a>,
    draw: &mut Draw,
) -> Result<bool, Refused>
    ensures post { DrawnPost job.entry.rows.now job.entry.threads job.entry.turns (sizes_of lent.entry (length states.old)) memory.old memory.new states.old states.new result }
    ensures whole { IsWhole job.entry.rows.now job.entry.threads job.entry.turns memory.old memory.new states.old states.new result }
{
    let sizes = lent.sizes(states.len());
    let Lent { ends, work, marks } = lent;
    let text = job.text(memory.len(), sizes, ends)?;
    let script = Script {
        rows: job.rows,
        ends,
        variables: text.variables,
    };
    let mut engine = Engine {
        script: &script,
        threads: job.threads,
        work,
        memory,
    };
    Ok(run_order(&mut engine, job.turns, marks, states, draw))
}
