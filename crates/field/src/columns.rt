// The columns of the index, each by the name that its tag has.

pub const SEQUENCE: usize = 0; // 34

pub const SENDER: usize = 1; // 49

pub const TARGET: usize = 2; // 56

pub const AGAIN: usize = 3; // 43

pub const SENT: usize = 4; // 52

pub const RESENT: usize = 5; // 97

pub const ENCRYPTION: usize = 6; // 98

pub const INTERVAL: usize = 7; // 108

pub const RESET_NUMBERS: usize = 8; // 141

pub const WORD: usize = 9; // 112

pub const FROM: usize = 10; // 7

pub const UP_TO: usize = 11; // 16

pub const FILLING: usize = 12; // 123

pub const TO: usize = 13; // 36

pub const EXEC_ID: usize = 14; // 17

pub const ORDER_ID: usize = 15; // 37

pub const TRANSACTION: usize = 16; // 20

pub const SYMBOL: usize = 17; // 55

pub const SIDE: usize = 18; // 54

pub const ORDER_QTY: usize = 19; // 38

pub const LAST_SHARES: usize = 20; // 32

pub const LAST_PRICE: usize = 21; // 31

pub const CUM_QTY: usize = 22; // 14

pub const LEAVES_QTY: usize = 23; // 151

pub const EXEC_TYPE: usize = 24; // 150

pub const STATUS: usize = 25; // 39

pub const TIME: usize = 26; // 60

pub const MULTI_LEG: usize = 27; // 442

pub const TYPE: usize = 28; // 35

pub const CORRECTION_TYPE: usize = 29; // 9020

pub const TRADE_ID: usize = 30; // 1003

pub const CORRECTION_NUM: usize = 31; // 9021

pub const CLIENT_ORDER: usize = 32; // 11

pub const ORIGINAL_TIME: usize = 33; // 42

pub const SECURITY: usize = 34; // 167
