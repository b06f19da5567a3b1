//! What a caller has of a job that was queued.
ghost use Rattle.std.specs.Prelude.{◌≡◌, ◌^◌, ◌≤◌};

use crate::sight::TallySight;
use sections::{Cookie, Given};
use std::marker::Model;

/// A job was queued. Its type keeps that a job was queued on the processor with this number and this cookie, as the seat
/// had seen by which it was queued.
#[derive(Drop)]
pub struct Receipt<J> {
    pub(crate) processor: u16,
    pub(crate) k: u64,
    pub(crate) cookie: Given,
    /// What the seat had seen by which it was queued.
    pub(crate) note: TallySight<J>,
}

impl<J> Model for Receipt<J> {
    ghost use Rattle.calls.specs.Views.{ReceiptView};

    ghost Value = { ReceiptView J };

    ghost use Rattle.calls.specs.Insides.{view_of_receipt, IsReceipt};

    ghost view = { view_of_receipt };

    ghost invariant = { IsReceipt };
}

impl<J> Receipt<J> {
    /// The processor on which the job was queued.
    pub fn processor(&self) -> u16
        ensures { result ≡ self.now.processor }
    {
        self.processor
    }

    /// The job's number among all that were queued there, from 0.
    pub fn k(&self) -> u64
        ensures { result ≡ self.now.k }
    {
        self.k
    }

    /// The number of its cookie, at most 2^61. The job is given out once this cookie is done.
    pub fn cookie(&self) -> u64
        ensures value { result ≡ self.now.cookie.number }
        ensures small { result ≤ 2 ^ 61 }
    {
        self.cookie.number()
    }

    /// Its cookie, to be polled.
    pub fn into_cookie(self) -> Cookie
        ensures { result ≡ self.cookie }
    {
        self.cookie.into_cookie()
    }
}
