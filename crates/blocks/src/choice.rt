// A choice between two words.
ghost use Rattle.std.specs.Prelude.{◌≡◌, cond};

pub fn choose(first: bool, a: u32, b: u32) -> u32
    ensures { result ≡ cond first a b }
{
    if first { a } else { b }
}
