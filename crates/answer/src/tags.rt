// The tags that the code asks for by name. The rows of the tables have them by number, as the paper does.

// ---- of every message

pub const TYPE: u32 = 35;

pub const SEQUENCE: u32 = 34;

pub const SENDER: u32 = 49;

pub const TARGET: u32 = 56;

// "43=Y": the message was sent before.
pub const AGAIN: u32 = 43;

pub const SENT: u32 = 52;

pub const FIRST_SENT: u32 = 122;

// ---- of the session's messages

pub const ENCRYPTION: u32 = 98;

pub const INTERVAL: u32 = 108;

// The word of a Test Request, and of the Heartbeat that answers it.
pub const WORD: u32 = 112;

// A Resend Request's first and last number.
pub const FROM: u32 = 7;

pub const UP_TO: u32 = 16;

// A Sequence Reset: "123=Y", and the number it moves to.
pub const FILLING: u32 = 123;

pub const TO: u32 = 36;

// A Reject: the number and the type of what it rejects, the tag it names, the reason, and a text about it.
pub const REJECTED: u32 = 45;

pub const NAMED: u32 = 371;

pub const REJECTED_TYPE: u32 = 372;

pub const REASON: u32 = 373;

pub const TEXT: u32 = 58;

// ---- of an execution report

pub const EXEC_ID: u32 = 17;

pub const ORDER_ID: u32 = 37;

pub const SYMBOL: u32 = 55;

pub const SIDE: u32 = 54;

pub const ORDER_QTY: u32 = 38;

pub const LAST_SHARES: u32 = 32;

pub const LAST_PRICE: u32 = 31;

pub const CUM_QTY: u32 = 14;

pub const LEAVES_QTY: u32 = 151;

pub const EXEC_TYPE: u32 = 150;

pub const STATUS: u32 = 39;

pub const TIME: u32 = 60;

// A report that has it is set aside.
pub const MULTI_LEG: u32 = 442;

// ---- of an Emerald report: what it says of its option

// Whose order it was: a customer's, a firm's, a market maker's.
pub const ORIGIN: u32 = 204;

// The month and the day of its expiry.
pub const EXPIRY_MONTH: u32 = 200;

pub const EXPIRY_DAY: u32 = 205;

pub const PUT_OR_CALL: u32 = 201;

pub const STRIKE: u32 = 202;

// A leg that is a stock has it.
pub const STOCK_LEG: u32 = 461;

// ---- of a Trade Cancel/Correct

// 20: a new manual trade, a cancel or a correction.
pub const TRANSACTION: u32 = 20;

pub const CORRECTION_TYPE: u32 = 9020;

pub const TRADE_ID: u32 = 1003;

pub const CORRECTION_NUM: u32 = 9021;
