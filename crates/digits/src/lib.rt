// A number's decimal digits, straight to their place in a lent buffer, first to last. The definitions are `decimal` of model's
// specs/Counters.antt and `digit_count` of its specs/Digits.antt.
#![tactic(auto)]

ghost use Rattle.std.specs.Prelude.{◌≡◌, ◌+◌, ◌≤◌, ◌<◌, length};
ghost use Rattle.std.proofs.lemmas.List.Edits.{sets};
ghost use Rattle.model.specs.Digits.{digit_count};
ghost use Rattle.digits.specs.Spelling.{digit, pair, field, Spells};

// The buffer and a place in it go on side by side, and each step asks for its room: the next place is a step's answer. A struct of the two
// would be lent on to each step and moved by it, and the step would have to promise of it what it says of the place.

// Puts the digit of a number below 10 at `at`.
fn put_digit(buffer: &mut [u8], at: usize, n: u64)
    requires below_10 { n < 10 }
    requires room { at < length buffer.old }
    ensures { buffer.new ≡ sets buffer.old at (digit n) }
{
    buffer[at] = b'0' + n as u8;
}

// Puts the two digits of a number below 100 at `at`. `both` is (48 + tens) + 256 * (48 + ones), where ones is n - 10 * tens: from one
// number the two bytes are one store.
fn put_pair(buffer: &mut [u8], at: usize, n: u64)
    requires below_100 { n < 100 }
    requires room { at + 2 ≤ length buffer.old }
    ensures { buffer.new ≡ sets buffer.old at (pair n) }
{
    let tens = n * 103 / 1024;
    let both = 12336 + 256 * n - 2559 * tens;
    let second = at + 1;
    buffer[at] = (both % 256) as u8;
    buffer[second] = (both / 256) as u8;
}

// Puts the digits of a number below 100 at `at`, and answers the place after them.
fn put_short(buffer: &mut [u8], at: usize, n: u64) -> usize
    requires below_100 { n < 100 }
    requires room { at + digit_count n ≤ length buffer.old }
    ensures { Spells n at buffer.old buffer.new result }
{
    if n < 10 {
        put_digit(buffer, at, n);
        return at + 1;
    }
    put_pair(buffer, at, n);
    at + 2
}

// Puts the digits of a number from 100 on: those of its hundreds, and then its last two.
fn put_long(buffer: &mut [u8], at: usize, n: u64) -> usize
    requires from_100 { 100 ≤ n }
    requires room { at + digit_count n ≤ length buffer.old }
    ensures { Spells n at buffer.old buffer.new result }
{
    let hundreds = n / 100;
    let next = if hundreds < 100 {
        put_short(buffer, at, hundreds)
    } else {
        put_long(buffer, at, hundreds)
    };
    put_pair(buffer, next, n % 100);
    next + 2
}

// Puts the digits of a longer number's hundreds. Below 100 `put_long` is not called: as it calls itself, the compiler does not inline it.
fn put_hundreds(buffer: &mut [u8], at: usize, n: u64) -> usize
    requires { at + digit_count n ≤ length buffer.old }
    ensures { Spells n at buffer.old buffer.new result }
{
    if n < 100 {
        return put_short(buffer, at, n);
    }
    put_long(buffer, at, n)
}

// Puts a number's digits. Below 10000 `put_long` is not called.
fn put_decimal(buffer: &mut [u8], at: usize, n: u64) -> usize
    requires { at + digit_count n ≤ length buffer.old }
    ensures { Spells n at buffer.old buffer.new result }
{
    if n < 100 {
        return put_short(buffer, at, n);
    }
    let next = put_hundreds(buffer, at, n / 100);
    put_pair(buffer, next, n % 100);
    next + 2
}

// Puts n's digits and the byte `end` at `at`, and answers the place after them.
pub fn put_field(buffer: &mut [u8], at: usize, n: u64, end: u8) -> usize
    requires { at + digit_count n + 1 ≤ length buffer.old }
    ensures next { result ≡ at + digit_count n + 1 }
    ensures bytes { buffer.new ≡ sets buffer.old at (field n end) }
{
    if n < 10 {
        put_digit(buffer, at, n);
        let next = at + 1;
        buffer[next] = end;
        return next + 1;
    }
    let next = put_decimal(buffer, at, n);
    buffer[next] = end;
    next + 1
}
