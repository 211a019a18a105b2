//! Sixty-four counts in the digits of each.

ghost use Rattle.std.specs.Prelude.{◌≡◌, ◌<◌, ◌+◌, ◌*◌, ◌==◌, ◌%◌, ℕ, nat_lt};
ghost use Rattle.qvt_metamodel.specs.Kept.{is_bit};
ghost use Rattle.qvt_counts.specs.Counts.{counted, no_counter, one, is_digit};

/// A count below 128 for each bit of a word: the digits of these to the base of two, those of one kind in one word.
#[derive(Clone, Copy)]
pub struct Counter {
    pub ones: u64,
    pub twos: u64,
    pub fours: u64,
    pub eights: u64,
    pub sixteens: u64,
    pub thirty_twos: u64,
    pub sixty_fours: u64,
}

/// Each count is 0.
pub fn no_counter() -> Counter
    ensures { result ≡ no_counter }
{
    Counter {
        ones: 0,
        twos: 0,
        fours: 0,
        eights: 0,
        sixteens: 0,
        thirty_twos: 0,
        sixty_fours: 0,
    }
}

/// The sum of two digits, and what it carries to the next.
fn sum(digit: u64, carry: u64) -> (u64, u64)
    ensures { (k : ℕ) → one (is_bit result.0 k) + 2 * one (is_bit result.1 k) ≡ one (is_bit digit k) + one (is_bit carry k) }
{
    (digit ^ carry, digit & carry)
}

/// Each count that is below 127, and one more where the word has a bit.
pub fn with_word(counter: &Counter, word: u64) -> Counter
    ensures { (k : ℕ) → counted counter.now k < 127 → counted result k ≡ counted counter.now k + one (is_bit word k) }
{
    let (ones, carry) = sum(counter.ones, word);
    if carry == 0 {
        return Counter { ones, ..*counter };
    }
    let (twos, carry) = sum(counter.twos, carry);
    let (fours, carry) = sum(counter.fours, carry);
    let (eights, carry) = sum(counter.eights, carry);
    let (sixteens, carry) = sum(counter.sixteens, carry);
    let (thirty_twos, carry) = sum(counter.thirty_twos, carry);
    let (sixty_fours, carry) = sum(counter.sixty_fours, carry);
    Counter {
        ones,
        twos,
        fours,
        eights,
        sixteens,
        thirty_twos,
        sixty_fours,
    }
}

/// Where the digit is the last one of the number.
fn same_digit(digit: u64, number: u32) -> u64
    ensures { (k : ℕ) → k < 64 → is_bit result k ≡ is_digit (is_bit digit k) number }
{
    if number % 2 == 1 { digit } else { !digit }
}

/// Where the count is this one.
pub fn where_count(counter: &Counter, count: u32) -> u64
    requires { count < 128 }
    ensures { (k : ℕ) → k < 64 → is_bit result k ≡ (counted counter.now k == count) }
{
    same_digit(counter.ones, count)
        & same_digit(counter.twos, count / 2)
        & same_digit(counter.fours, count / 4)
        & same_digit(counter.eights, count / 8)
        & same_digit(counter.sixteens, count / 16)
        & same_digit(counter.thirty_twos, count / 32)
        & same_digit(counter.sixty_fours, count / 64)
}

/// Where the count is not 0.
pub fn where_some(counter: &Counter) -> u64
    ensures { (k : ℕ) → is_bit result k ≡ nat_lt 0 (counted counter.now k) }
{
    counter.ones
        | counter.twos
        | counter.fours
        | counter.eights
        | counter.sixteens
        | counter.thirty_twos
        | counter.sixty_fours
}
