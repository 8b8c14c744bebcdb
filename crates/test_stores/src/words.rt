// The texts of errors.
use crate::setup::says;
use snap_call::Refusal;
use snap_jobs::JobsStop;
use snap_script::{Fault, Field};
use snap_session::{LineFault, Stop};
use std::alloc::AllocError;

#[test]
fn errors_are_printed(rt: HostRuntime) {
    let alloc = rt.alloc();
    let over = Refusal::OverLimit {
        free_blocks: 3,
        free_inodes: 2,
    };
    for (refusal, words) in [
        (Refusal::BadArgument, "bad argument"),
        (Refusal::NoNamespace, "no such namespace"),
        (Refusal::NotFound, "not found"),
        (Refusal::AlreadyExists, "already exists"),
        (Refusal::NotCommitted, "not committed"),
        (Refusal::NotActive, "not active"),
        (Refusal::HasChildren, "has children"),
        (Refusal::InUse, "in use"),
        (Refusal::Leased, "leased"),
        (Refusal::NoLease, "no such lease"),
        (Refusal::LeaseExists, "the lease exists already"),
        (Refusal::TooDeep, "too many ancestors"),
        (Refusal::TooManyActives, "too many active snapshots"),
        (over, "over the limit: 3 blocks and 2 inodes are free"),
        (Refusal::BelowCharge, "below the charge"),
        (Refusal::NamespaceExists, "the namespace exists already"),
        (Refusal::TooManyNamespaces, "too many namespaces"),
        (Refusal::NotEmpty, "the namespace isn't empty"),
        (Refusal::NumbersSpent, "numbers spent"),
        (Refusal::JournalFull, "journal full"),
        (Refusal::OutOfMemory(AllocError.into()), "out of memory"),
    ] {
        says(&rt, alloc, &refusal, words);
    }
    let fault = LineFault {
        line: 12,
        cause: Fault::BadField(Field::Namespace, None),
    };
    says(&rt, alloc, &Stop::Line(fault), "line 12: bad field ns");
    says(&rt, alloc, &Stop::from(AllocError), "want of memory");
    says(&rt, alloc, &JobsStop::NotClosed, "not closed");
    let lacking = JobsStop::WantOfMemory { jobs: 3, all: 10 };
    says(&rt, alloc, &lacking, "want of memory: 3 of 10 jobs");
}
