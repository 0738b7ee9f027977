#![tactic(auto)]

// The standard rotation of a nested word that stands in the lent work area: each letter is a step of the builder, with no test, since the word is nested. It
// knows where the letters stand and their codes, no payloads.
ghost use Rattle.std.specs.Prelude.{◌≡◌, true, ◌∷◌, [], ◌*◌, ◌≤◌, length};
ghost use Rattle.words.specs.Word.{nested};
ghost use Rattle.work.specs.Letters.{to_letter, letters_in, Coded};
ghost use Rattle.builder.specs.Steps.{parts_at, begun_after};
ghost use Rattle.builder.specs.Moves.{Fits, Able, Moved};
ghost use Rattle.word_builder.specs.Built.{Built};

use builder::State;

// The letter with the code x, which may come, where e edges have begun. Tests in place of a match, which would need a last arm for codes that no letter has.
fn step(w: &mut [u16], m: usize, s: State, e: usize, x: u16) -> State
    requires { Fits m w.old s e × Able (to_letter x) m (parts_at m w.old s) s e }
    ensures { Moved (to_letter x ∷ []) [] m w.old s e result (begun_after (to_letter x) e) w.new }
{
    if x == work::DOWN {
        return builder::enter(w, m, s, e);
    }
    if x == work::FIRST {
        return builder::back(w, m, s, e);
    }
    if x == work::UP {
        let tree = builder::last_tree(w, m, s);
        return builder::rise(w, m, s, tree);
    }
    let open = builder::last_open(w, m, s);
    builder::close(w, m, s, open)
}

// The standard rotation of the word in the work area, in its first 2m entries. The codes of the letters that begin an edge are odd; the last dart's successor
// is dart 0.
pub fn build(w: &mut [u16], m: usize)
    requires le_m { (1 ≤ m) × (m ≤ 4096) × (32 * m ≤ length w.old) }
    requires coded { Coded (2 * m) w.old × (nested true 1 0 [] [] (letters_in (2 * m) w.old) ≡ true) }
    ensures { Built (2 * m) w.old w.new }
{
    let n = 2 * m;
    work::fill(w, 0, n, 0);
    let mut s = State {
        n: 1,
        here: 0,
        depth: 0,
        opens: 0,
        place: 0,
    };
    let mut e = 0;
    for i in 0..n {
        let x = w[work::LETTERS * n + i];
        s = step(w, m, s, e, x);
        e += (x % 2) as usize;
    }
    w[s.place] = 0;
}
