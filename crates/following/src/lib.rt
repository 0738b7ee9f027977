#![tactic(auto)]

// One cycle of a rotation or of its face walk followed, in the work area: its darts get its name and are counted. It does not look for cycles.
ghost use Rattle.std.specs.Prelude.{length};
ghost use Rattle.following.specs.Half.{HalfNamed, Followed};

use dart_steps::Steps;

// Names every dart of the cycle of start, which is its least; and how many they are.
pub fn follow<S: Steps>(order: &[u16], w: &mut [u16], a: usize, start: usize) -> usize
    requires { HalfNamed S.of order.now a start w.old }
    ensures { Followed (S.of order.now) (length order.now) a start w.old result w.new }
{
    let name = start as u16;
    let mut x = start;
    let mut steps = 0;
    loop {
        w[a + x] = name;
        x = S::step(order, x);
        steps += 1;
        if x == start {
            return steps;
        }
    }
}
