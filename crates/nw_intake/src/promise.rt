//! The promise of a worker's thread.
use crate::Gate;
use crate::share::ShareResult;
use nw_committee::Committee;
use nw_digest::Shared;
use nw_sig::Scheme;
use std::marker::PhantomData;
use std::thread::Promise;

/// A worker's thread promises to return the answers to the worker's share of the texts, or why the worker stopped.
#[derive(Drop)]
pub(crate) struct SharePromise<'a, S: Scheme, G: Gate> {
    pub(crate) committee: &'a Shared<Committee>,
    pub(crate) texts: &'a [Vec<u8>],
    pub(crate) worker: usize,
    pub(crate) workers: usize,
    pub(crate) gate: &'a G,
    pub(crate) scheme: PhantomData<S>,
}

impl<'a, S: Scheme, G: Gate> Promise<ShareResult<S>> for SharePromise<'a, S, G> {
    ghost use Rattle.nw_intake.specs.Shares.{IsShareResult};

    ghost kept_by = { λ p r. IsShareResult S.accepts p.committee.now p.texts.now
        (G.says p.gate.now) p.worker p.workers r };
}
