// Calls for the crates above: each puts its bytes at a place, where it requires room, and answers the place after them.
ghost use Rattle.std.specs.Prelude.{[], ◌∷◌, ◌++◌};
ghost use Rattle.lines.specs.Lines.{decimal};
ghost use Rattle.lines.specs.Inner.{Put, Room, numbered};

use fitting::inner::count_digits;

// Some text.
pub fn put_text(out: &mut [u8], at: usize, text: &[u8]) -> usize
    requires { Room text.now out.old at }
    ensures { Put text.now out.old at result out.new }
{
    let next = at + text.len();
    out[at..next].copy_from_slice(text);
    next
}

// The end of a line.
pub fn put_newline(out: &mut [u8], at: usize) -> usize
    requires { Room (10 ∷ []) out.old at }
    ensures { Put (10 ∷ []) out.old at result out.new }
{
    put_text(out, at, b"\n")
}

// The decimal digits of a number, its last digit first.
fn put_decimal(out: &mut [u8], at: usize, n: u64) -> usize
    requires { Room (decimal n) out.old at }
    ensures { Put (decimal n) out.old at result out.new }
{
    let digits = count_digits(n);
    let mut rest = n;
    for i in (0..digits).rev() {
        out[at + i] = b'0' + (rest % 10) as u8;
        rest /= 10;
    }
    at + digits
}

// Some text, and a number right after it.
pub fn put_number(out: &mut [u8], at: usize, text: &[u8], n: u64) -> usize
    requires { Room (numbered text.now n) out.old at }
    ensures { Put (numbered text.now n) out.old at result out.new }
{
    let next = put_text(out, at, text);
    put_decimal(out, next, n)
}

// The same twice.
pub fn put_both(out: &mut [u8], at: usize, text: &[u8], n: u64, more: &[u8], m: u64) -> usize
    requires { Room (numbered text.now n ++ numbered more.now m) out.old at }
    ensures { Put (numbered text.now n ++ numbered more.now m) out.old at result out.new }
{
    let next = put_number(out, at, text, n);
    put_number(out, next, more, m)
}
