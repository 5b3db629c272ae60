// Why a request has no verdict.
use std::alloc::AllocError;
use thiserror::Error;

#[derive(Clone, Copy, Debug, Error)]
pub enum Flaw {
    #[error("empty line")]
    EmptyLine,
    #[error("line too long")]
    LongLine,
    #[error("unknown request")]
    UnknownRequest,
    #[error("wrong number of fields")]
    Fields,
    #[error("unknown coupling")]
    UnknownCoupling,
    #[error("empty field")]
    EmptyField,
    #[error("not lower-case hexadecimal")]
    NotHex,
    #[error("an odd number of digits")]
    OddDigits,
    #[error("not yet")]
    NotYet,
    #[error("memory")]
    Memory,
}

impl From<AllocError> for Flaw {
    fn from(_e: AllocError) -> Flaw {
        Flaw::Memory
    }
}
