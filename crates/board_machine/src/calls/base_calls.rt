//! The Base extension (SBI 4).

ghost use Rattle.std.specs.Prelude.{◌≡◌};
ghost use Rattle.board_rules.specs.Calls.Base.{base_reply};
ghost use Rattle.board_rules.specs.Returns.{as_reply};

use super::success;
use board_terms::Reply;
use sbi_abi::call::BaseCall;
use sbi_abi::is_extension;

/// The reply to a call of the Base extension (SBI 4). The ids and versions are this implementation's (profile), except
/// the specification's version.
pub fn base_reply(call: BaseCall) -> Reply
    ensures { result ≡ as_reply (base_reply call) }
{
    match call {
        BaseCall::GetSpecVersion => success(0x100_0000),
        BaseCall::GetImplId => success(0x5A_5A5A),
        BaseCall::GetImplVersion => success(1),
        BaseCall::ProbeExtension(eid) => success(u64::from(is_extension(eid))),
        BaseCall::GetMvendorid => success(0),
        BaseCall::GetMarchid => success(0),
        BaseCall::GetMimpid => success(0),
    }
}
