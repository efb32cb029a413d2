// Why a page is not fetched.
use space::{AbandonFault, BeginFault, SettleFault};
use thiserror::Error;

#[derive(Clone, Copy, PartialEq, Eq, Debug, Error)]
pub enum FetchFault {
    #[error("{0}")]
    Begin(#[from] BeginFault),
    #[error("{0}")]
    Settle(#[from] SettleFault),
    #[error("{0}")]
    Abandon(#[from] AbandonFault),
}

// The disk cannot give the contents of a page.
#[derive(Clone, Copy, PartialEq, Eq, Debug, Error)]
#[error("its disk read failed")]
pub struct Unreadable;
