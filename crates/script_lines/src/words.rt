//! The words of operations, and of what is said of a step: constants, so that a reader compares with literals.

/// An operation's word.
pub const ECALL: &[u8] = b"ecall";

/// An operation's word.
pub const LOAD: &[u8] = b"load";

/// An operation's word.
pub const STORE: &[u8] = b"store";

/// An operation's word.
pub const FETCH: &[u8] = b"fetch";

/// An operation's word.
pub const SATP: &[u8] = b"satp";

/// An operation's word.
pub const SIE: &[u8] = b"sie";

/// An operation's word.
pub const SSTATUS: &[u8] = b"sstatus";

/// An operation's word.
pub const SIP: &[u8] = b"sip";

/// An operation's word.
pub const CLEARSSIP: &[u8] = b"clearssip";

/// An operation's word.
pub const SFENCE: &[u8] = b"sfence";

/// An operation's word.
pub const FENCEI: &[u8] = b"fencei";

/// An operation's word.
pub const WFI: &[u8] = b"wfi";

/// An operation's word.
pub const AMOSWAP: &[u8] = b"amoswap";

/// An operation's word.
pub const AMOADD: &[u8] = b"amoadd";

/// An operation's word.
pub const AMOAND: &[u8] = b"amoand";

/// An operation's word.
pub const AMOOR: &[u8] = b"amoor";

/// An operation's word.
pub const AMOXOR: &[u8] = b"amoxor";

/// An operation's word.
pub const AMOMIN: &[u8] = b"amomin";

/// An operation's word.
pub const AMOMAX: &[u8] = b"amomax";

/// An operation's word.
pub const AMOMINU: &[u8] = b"amominu";

/// An operation's word.
pub const AMOMAXU: &[u8] = b"amomaxu";

/// An operation's word.
pub const AMOSWAP_W: &[u8] = b"amoswap.w";

/// An operation's word.
pub const AMOADD_W: &[u8] = b"amoadd.w";

/// An operation's word.
pub const AMOAND_W: &[u8] = b"amoand.w";

/// An operation's word.
pub const AMOOR_W: &[u8] = b"amoor.w";

/// An operation's word.
pub const AMOXOR_W: &[u8] = b"amoxor.w";

/// An operation's word.
pub const AMOMIN_W: &[u8] = b"amomin.w";

/// An operation's word.
pub const AMOMAX_W: &[u8] = b"amomax.w";

/// An operation's word.
pub const AMOMINU_W: &[u8] = b"amominu.w";

/// An operation's word.
pub const AMOMAXU_W: &[u8] = b"amomaxu.w";

/// An operation's word.
pub const AMOCAS: &[u8] = b"amocas";

/// An operation's word.
pub const STORE1: &[u8] = b"store1";

/// An operation's word.
pub const STORE2: &[u8] = b"store2";

/// An operation's word.
pub const STORE4: &[u8] = b"store4";

/// An operation's word.
pub const POLL: &[u8] = b"poll";

/// An operation's word.
pub const SERVE: &[u8] = b"serve";

/// An operation's word.
pub const ADVANCE: &[u8] = b"advance";

/// An operation's word.
pub const TICK: &[u8] = b"tick";

/// A reply's word.
pub const RET: &[u8] = b"ret";

/// A reply's word.
pub const WAITING: &[u8] = b"waiting";

/// A reply's word.
pub const GONE: &[u8] = b"gone";

/// A reply's word.
pub const ENTRY: &[u8] = b"entry";

/// A reply's word.
pub const VALUE: &[u8] = b"value";

/// A reply's word.
pub const FAULT: &[u8] = b"fault";

/// A reply's word.
pub const SERVED: &[u8] = b"served";

/// A reply's word.
pub const MOVED: &[u8] = b"moved";

/// A reply's word.
pub const DONE: &[u8] = b"done";

/// A refusal's word.
pub const REFUSED: &[u8] = b"refused";
