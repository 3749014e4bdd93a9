// The program status word, as six bits and as a number, and the rule by which it changes.
ghost use Rattle.std.specs.Prelude.{◌≡◌, cond};
ghost use Rattle.status.specs.Psw.{mk_psw, get_psw, changed, clocked, next_psw};

use alu::Flags;

#[derive(Clone, Copy)]
pub struct Psw {
    pub sm: bool,
    pub ie: bool,
    pub v: bool,
    pub n: bool,
    pub c: bool,
    pub z: bool,
}

// The two lines of a bit that can be set and cleared.
#[derive(Clone, Copy)]
pub struct Change {
    pub set: bool,
    pub clear: bool,
}

// The lines into the PSW: `set` takes a whole word, `clock` the single bits, `load` says which of
// `flags` are taken.
#[derive(Clone, Copy)]
pub struct PswLines {
    pub set: bool,
    pub clock: bool,
    pub sm: Change,
    pub ie: Change,
    pub load: Flags,
    pub flags: Flags,
}

impl From<Psw> for u32 {
    ghost from_gives = { λ psw w. w ≡ mk_psw psw };

    #[tactic(auto, unfolding(crate::specs::Psw::mk_psw))]
    fn from(psw: Psw) -> u32 {
        let Psw { sm, ie, v, n, c, z } = psw;
        (sm as u32) * 32
            + (ie as u32) * 16
            + (v as u32) * 8
            + (n as u32) * 4
            + (c as u32) * 2
            + (z as u32)
    }
}

// The word's other bits are dropped.
impl From<u32> for Psw {
    ghost from_gives = { λ w psw. psw ≡ get_psw w };

    #[tactic(auto, unfolding(words::specs::Words::bit, crate::specs::Psw::get_psw))]
    fn from(w: u32) -> Psw {
        Psw {
            sm: w / 32 % 2 == 1,
            ie: w / 16 % 2 == 1,
            v: w / 8 % 2 == 1,
            n: w / 4 % 2 == 1,
            c: w / 2 % 2 == 1,
            z: w % 2 == 1,
        }
    }
}

fn changed(lines: Change, old: bool) -> bool
    ensures { result ≡ changed lines old }
{
    lines.set | (!lines.clear & old)
}

fn load(take: bool, new: bool, old: bool) -> bool
    ensures { result ≡ cond take new old }
{
    (take & new) | (!take & old)
}

// The single bits, each by its lines.
#[tactic(auto, unfolding(crate::specs::Psw::clocked))]
fn clocked(lines: PswLines, psw: Psw) -> Psw
    ensures { result ≡ clocked lines psw }
{
    let take = lines.load;
    let new = lines.flags;
    Psw {
        sm: changed(lines.sm, psw.sm),
        ie: changed(lines.ie, psw.ie),
        v: load(take.v, new.v, psw.v),
        n: load(take.n, new.n, psw.n),
        c: load(take.c, new.c, psw.c),
        z: load(take.z, new.z, psw.z),
    }
}

#[tactic(auto, using(crate::proofs::PswRule::kept, crate::proofs::PswRule::single_bits, crate::proofs::PswRule::whole_word))]
pub fn next(lines: PswLines, word: u32, psw: Psw) -> Psw
    ensures { result ≡ next_psw lines word psw }
{
    if lines.set & psw.sm {
        return Psw::from(word);
    }
    if lines.clock {
        return clocked(lines, psw);
    }
    psw
}
