// The rows of the tables, as the paper has them, and the kinds of message.
ghost use Rattle.std.specs.Prelude.{◌≡◌, map};
ghost use Rattle.table.specs.Rows.{rows_of, here_of, kind_of};

use super::{Codes, Form, Range, Row, Where};
use answer::{Kind, Setup};
use field::columns;

// "all: 52 UTC time; optional 43, 97: Y or N".
const SENT: Row = Row::Needs(52, Form::Time, Where::Always);

const AGAIN: Row = Row::May(43, Form::Code(Codes::YesNo), Where::Always);

const RESENT: Row = Row::May(97, Form::Code(Codes::YesNo), Where::Always);

// 8, "In table order".
const EXEC_ID: Row = Row::Needs(17, Form::Graph(Range::Of(1, 20)), Where::Always);

const ORDER_ID: Row = Row::Needs(37, Form::Graph(Range::Of(1, 20)), Where::Always);

const TRANSACTION: Row = Row::Needs(20, Form::Code(Codes::New), Where::Always);

const SYMBOL: Row = Row::Needs(55, Form::Graph(Range::Of(1, 8)), Where::Always);

const SIDE: Row = Row::Needs(54, Form::Code(Codes::Side), Where::Always);

const ORDER_QTY: Row = Row::Needs(38, Form::Number(Range::Of(1, 999_999)), Where::Always);

const LAST_SHARES: Row = Row::Needs(32, Form::Number(Range::Of(1, 999_999)), Where::Always);

const LAST_PRICE: Row = Row::Needs(31, Form::Price, Where::Always);

const CUM_QTY: Row = Row::Needs(14, Form::Number(Range::Of(1, 999_999)), Where::Always);

const LEAVES_QTY: Row = Row::Needs(151, Form::Number(Range::Of(0, 999_999)), Where::Always);

const EXEC_TYPE: Row = Row::Needs(150, Form::Code(Codes::Filled), Where::Always);

const STATUS: Row = Row::Needs(39, Form::Text(Range::Any), Where::Always);

const TIME: Row = Row::Needs(60, Form::Time, Where::Always);

const MULTI_LEG: Row = Row::May(442, Form::Code(Codes::Legs), Where::Always);

// UCC, source document 003, section 5.2, in its order: the rows that a report has too are the report's own constants.
const TRANSACTIONS: Row = Row::Needs(20, Form::Code(Codes::Transactions), Where::Always);

const CORRECTION_TYPE: Row = Row::Needs(9020, Form::Code(Codes::Corrections), Where::Always);

const TRADE_ID: Row = Row::Needs(1003, Form::Graph(Range::Of(1, 20)), Where::Always);

const CORRECTION_NUM: Row = Row::Needs(
    9021,
    Form::Number(Range::Of(0, 999_999_999)),
    Where::Always,
);

const CLIENT_ORDER: Row = Row::Needs(11, Form::Graph(Range::Of(1, 30)), Where::Always);

const ORIGINAL_TIME: Row = Row::Needs(42, Form::Time, Where::Always);

const SECURITY: Row = Row::Needs(167, Form::Security, Where::Always);

// A: "98 is 0; 108 is 0 to 3,600; optional 141 is N".
const ENCRYPTION: Row = Row::Needs(98, Form::Number(Range::Of(0, 0)), Where::Always);

const INTERVAL: Row = Row::Needs(108, Form::Number(Range::Of(0, 3_600)), Where::Always);

const RESET_NUMBERS: Row = Row::May(141, Form::Code(Codes::No), Where::Always);

// 0: "optional 112, 1 to 32 bytes".
const WORD_HEARD: Row = Row::May(112, Form::Text(Range::Of(1, 32)), Where::Always);

// 1: "112, 1 to 32 bytes".
const WORD_ASKED: Row = Row::Needs(112, Form::Text(Range::Of(1, 32)), Where::Always);

// 2: "7 is 1 to O−1; 16 is 0 or at least 7's".
const FROM: Row = Row::Needs(7, Form::Number(Range::Written), Where::Always);

const UP_TO: Row = Row::Needs(16, Form::Number(Range::NoneOrFrom(7)), Where::Always);

// 4: "optional 123: Y or N; 36 is 1 to 999,999,999".
const FILLING: Row = Row::May(123, Form::Code(Codes::YesNo), Where::Always);

const TO: Row = Row::Needs(36, Form::Number(Range::Of(1, 999_999_999)), Where::Always);

// The tables. The rows of a type are taken in order, each with the column that its tag has in a body's index: so no tag is looked up.
pub(crate) static HEADER_ROWS: [(Row, usize); 3] = [
    (SENT, columns::SENT),
    (AGAIN, columns::AGAIN),
    (RESENT, columns::RESENT),
];

static REPORT_ROWS: [(Row, usize); 14] = [
    (EXEC_ID, columns::EXEC_ID),
    (ORDER_ID, columns::ORDER_ID),
    (TRANSACTION, columns::TRANSACTION),
    (SYMBOL, columns::SYMBOL),
    (SIDE, columns::SIDE),
    (ORDER_QTY, columns::ORDER_QTY),
    (LAST_SHARES, columns::LAST_SHARES),
    (LAST_PRICE, columns::LAST_PRICE),
    (CUM_QTY, columns::CUM_QTY),
    (LEAVES_QTY, columns::LEAVES_QTY),
    (EXEC_TYPE, columns::EXEC_TYPE),
    (STATUS, columns::STATUS),
    (TIME, columns::TIME),
    (MULTI_LEG, columns::MULTI_LEG),
];

static CORRECTION_ROWS: [(Row, usize); 14] = [
    (TRANSACTIONS, columns::TRANSACTION),
    (CORRECTION_TYPE, columns::CORRECTION_TYPE),
    (EXEC_ID, columns::EXEC_ID),
    (TRADE_ID, columns::TRADE_ID),
    (CORRECTION_NUM, columns::CORRECTION_NUM),
    (ORDER_ID, columns::ORDER_ID),
    (CLIENT_ORDER, columns::CLIENT_ORDER),
    (ORIGINAL_TIME, columns::ORIGINAL_TIME),
    (TIME, columns::TIME),
    (SECURITY, columns::SECURITY),
    (SYMBOL, columns::SYMBOL),
    (SIDE, columns::SIDE),
    (LAST_PRICE, columns::LAST_PRICE),
    (LAST_SHARES, columns::LAST_SHARES),
];

static LOGON_ROWS: [(Row, usize); 3] = [
    (ENCRYPTION, columns::ENCRYPTION),
    (INTERVAL, columns::INTERVAL),
    (RESET_NUMBERS, columns::RESET_NUMBERS),
];

static HEARTBEAT_ROWS: [(Row, usize); 1] = [(WORD_HEARD, columns::WORD)];

static TEST_ROWS: [(Row, usize); 1] = [(WORD_ASKED, columns::WORD)];

static RESEND_ROWS: [(Row, usize); 2] = [(FROM, columns::FROM), (UP_TO, columns::UP_TO)];

static RESET_ROWS: [(Row, usize); 2] = [(FILLING, columns::FILLING), (TO, columns::TO)];

// The rows of a type after the header's, each with its tag's column.
pub(crate) fn rows_of(kind: Kind) -> &'static [(Row, usize)]
    ensures { result.now ≡ map here_of (rows_of kind) }
{
    match kind {
        Kind::Logon => &LOGON_ROWS,
        Kind::Heartbeat => &HEARTBEAT_ROWS,
        Kind::Test => &TEST_ROWS,
        Kind::Resend => &RESEND_ROWS,
        Kind::Reset => &RESET_ROWS,
        Kind::Report => &REPORT_ROWS,
        Kind::Correction => &CORRECTION_ROWS,
        Kind::Logout | Kind::Other | Kind::Unlisted => &[],
    }
}

// The kind of a message, by its type's bytes.
pub fn kind_of(setup: Setup, t: &[u8]) -> Kind
    ensures { result ≡ kind_of setup t.now }
{
    match t {
        b"A" => Kind::Logon,
        b"0" => Kind::Heartbeat,
        b"1" => Kind::Test,
        b"2" => Kind::Resend,
        b"4" => Kind::Reset,
        b"5" => Kind::Logout,
        b"8" => Kind::Report,
        b"UCC" => Kind::Correction,
        b"3" | b"j" => Kind::Other,
        _ => Kind::Unlisted,
    }
}
