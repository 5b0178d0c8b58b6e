// An entry is a slot: a byte that says that it is one, and its body as the C note has it after E and O.
ghost use Rattle.std.specs.Prelude.{◌≡◌};
ghost use Rattle.text.specs.Writing.{puts};
ghost use Rattle.fill.specs.Entry.{entry_of, entry_slot, trade_of, number_of, entry_side_of, transaction_of, correction_of, original_of};
ghost use Rattle.fill.specs.Entry.{entry_shares_of, entry_price_of, entry_time_of, key_of, names_lawful, codes_lawful, entry_lawful, entry_line};

use super::{
    IS_ENTRY, MOST_PRICE, SLOT, TIME, is_text, number_word, put_text, put_time, text_word,
};
use answer::{MOST_CONTRACTS, NINE_DIGITS};
use octet::part;
use text::Text;

// "TradeID 21, CorrectionNum 4, side 1, ExecTransType 1, CorrectionType 1, ExecID 31, LastShares 4, price 8, time (60)", and a zero to the slot's width.
pub const ENTRY_WIDTHS: [u8; 9] = [21, 4, 1, 1, 1, 31, 4, 8, 22];

const TRADE: usize = 21;

const ORIGINAL: usize = 31;

// Where each part stands in a slot, after the byte that says entry.
const TRADE_AT: usize = 1;

const NUMBER_AT: usize = TRADE_AT + TRADE;

const SIDE_AT: usize = NUMBER_AT + 4;

const TRANSACTION_AT: usize = SIDE_AT + 1;

const CORRECTION_AT: usize = TRANSACTION_AT + 1;

const ORIGINAL_AT: usize = CORRECTION_AT + 1;

const SHARES_AT: usize = ORIGINAL_AT + ORIGINAL;

const PRICE_AT: usize = SHARES_AT + 4;

const TIME_AT: usize = PRICE_AT + 8;

// The key: TradeID, CorrectionNum, Side and ExecTransType, as they stand one after another.
const KEY: usize = CORRECTION_AT - TRADE_AT;

pub fn key_of(s: &[u8]) -> &[u8]
    ensures { result.now ≡ key_of s.now }
{
    part(s, TRADE_AT, KEY)
}

fn trade_of(s: &[u8]) -> &[u8]
    ensures { result.now ≡ trade_of s.now }
{
    part(s, TRADE_AT, TRADE)
}

fn number_of(s: &[u8]) -> u32
    ensures { result ≡ number_of s.now }
{
    octet::four_at(s, NUMBER_AT)
}

// Side, ExecTransType and CorrectionType are numbers of one byte.
fn side_of(s: &[u8]) -> u32
    ensures { result ≡ entry_side_of s.now }
{
    u32::from(octet::byte_at(s, SIDE_AT))
}

fn transaction_of(s: &[u8]) -> u32
    ensures { result ≡ transaction_of s.now }
{
    u32::from(octet::byte_at(s, TRANSACTION_AT))
}

fn correction_of(s: &[u8]) -> u32
    ensures { result ≡ correction_of s.now }
{
    u32::from(octet::byte_at(s, CORRECTION_AT))
}

fn original_of(s: &[u8]) -> &[u8]
    ensures { result.now ≡ original_of s.now }
{
    part(s, ORIGINAL_AT, ORIGINAL)
}

fn shares_of(s: &[u8]) -> u32
    ensures { result ≡ entry_shares_of s.now }
{
    octet::four_at(s, SHARES_AT)
}

fn price_of(s: &[u8]) -> u64
    ensures { result ≡ entry_price_of s.now }
{
    octet::eight_at(s, PRICE_AT)
}

fn time_of(s: &[u8]) -> &[u8]
    ensures { result.now ≡ entry_time_of s.now }
{
    part(s, TIME_AT, TIME)
}

// The slot of an entry, of nine parameters as a fill's is.
pub fn entry_with(
    trade: &[u8],
    number: u32,
    side: u8,
    transaction: u8,
    correction: u8,
    exec: &[u8],
    shares: u32,
    price: u64,
    time: &[u8],
) -> [u8; SLOT]
    ensures { result ≡ entry_slot (entry_of trade.now number side transaction correction exec.now shares price time.now) }
{
    let mut slot = [0u8; SLOT];
    slot[0] = IS_ENTRY;
    put_text(&mut slot, TRADE_AT, TRADE, trade);
    octet::put_four(&mut slot, NUMBER_AT, number);
    slot[SIDE_AT] = side;
    slot[TRANSACTION_AT] = transaction;
    slot[CORRECTION_AT] = correction;
    put_text(&mut slot, ORIGINAL_AT, ORIGINAL, exec);
    octet::put_four(&mut slot, SHARES_AT, shares);
    octet::put_eight(&mut slot, PRICE_AT, price);
    put_time(&mut slot, TIME_AT, time);
    slot
}

// "1 to 20 bytes", in a field that has room for 30.
const LONGEST_ORIGINAL: u8 = 20;

fn names_lawful(s: &[u8]) -> bool
    ensures { result ≡ names_lawful s.now }
{
    is_text(trade_of(s))
        && is_text(original_of(s))
        && octet::byte_at(original_of(s), 0) <= LONGEST_ORIGINAL
}

// CorrectionNum has one to nine digits; 54 is 1 or 2, 20 is 0 to 2, 9020 is 1 to 5.
fn codes_lawful(s: &[u8]) -> bool
    ensures { result ≡ codes_lawful s.now }
{
    number_of(s) <= NINE_DIGITS
        && matches!(side_of(s), 1 | 2)
        && matches!(transaction_of(s), 0..=2)
        && matches!(correction_of(s), 1..=5)
}

// Whether an entry's body is so formed, with values that a Trade Cancel/Correct can have.
#[tactic(auto, unfolding(crate::specs::Entry::entry_lawful))]
pub(crate) fn is_lawful_entry(s: &[u8]) -> bool
    ensures { result ≡ entry_lawful s.now }
{
    names_lawful(s)
        && codes_lawful(s)
        && matches!(shares_of(s), 1..=MOST_CONTRACTS)
        && price_of(s) <= MOST_PRICE
        && value::is_time(time_of(s))
}

// The line of entry n more, with its line feed: "`C`, the number and the four key fields".
pub(crate) fn entry_text(t: &mut Text, n: u32, s: &[u8])
    ensures { t.new ≡ puts t.old (entry_line n s.now) }
{
    t.put(b'C');
    number_word(t, u64::from(n));
    text_word(t, trade_of(s));
    number_word(t, u64::from(number_of(s)));
    number_word(t, u64::from(side_of(s)));
    number_word(t, u64::from(transaction_of(s)));
    t.put(b'\n');
}
