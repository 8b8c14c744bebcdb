// The texts of errors, and of a usage.
use crate::setup::{equal, usage};
use snap_layer::LayerError;
use snap_lease::{LeaseError, LeaseNameError};
use snap_merge::FsError;
use snap_path::{NoMemory, PathError};
use std::alloc::AllocError;

#[test]
fn texts_of_file_calls(rt: HostRuntime) {
    for (error, text) in [
        (FsError::BadPath, "invalid path"),
        (FsError::NotFound, "no such file or directory"),
        (FsError::NotDir, "not a directory"),
        (FsError::IsDir, "is a directory"),
        (FsError::Exists, "file exists"),
        (FsError::NotEmpty, "directory not empty"),
        (FsError::CrossDevice, "invalid cross-device link"),
        (FsError::Invalid, "invalid argument"),
        (FsError::NotPermitted, "operation not permitted"),
        (FsError::TooBig, "file too large"),
        (FsError::LayerFull, "the layer is full"),
        (
            FsError::NeedsCharge(usage(4, 3)),
            "a charge of 4/3 is needed",
        ),
        (FsError::TooManyLinks, "too many levels of symbolic links"),
        (FsError::OutOfMemory(AllocError.into()), "out of memory"),
    ] {
        let found = format!(in rt.alloc(); "{error}").expect(&rt, "memory for a text");
        equal(&rt, found.as_str(), text);
    }
}

#[test]
fn other_texts(rt: HostRuntime) {
    let no_memory = NoMemory::from(AllocError);
    let (bad, no_path) = (PathError::BadPath, PathError::OutOfMemory(no_memory));
    let (full, no_layer) = (LayerError::LayerFull, LayerError::OutOfMemory(no_memory));
    let (none, there) = (LeaseError::NoLease, LeaseError::LeaseExists);
    let no_lease = LeaseError::OutOfMemory(no_memory);
    let (lacks, unnamed) = (LeaseNameError::NoLease, LeaseNameError::NoName);
    let found = format!(in rt.alloc();
        "{bad}, {no_path}; {full}, {no_layer}; {none}, {there}, {no_lease}; {lacks}, {unnamed}"
    ).expect(&rt, "memory for a text");
    equal(
        &rt,
        found.as_str(),
        "invalid path, out of memory; the layer is full, out of memory; no such lease, the lease exists already, out of memory; no such lease, no such name in the lease",
    );
}

#[test]
fn texts_of_usages(rt: HostRuntime) {
    let (small, greatest) = (usage(4, 3), usage(u64::MAX, u64::MAX));
    let found = format!(in rt.alloc(); "{small}|{small:5}|{small:>5}|{small:.2}|{greatest}").expect(
        &rt,
        "memory for a text",
    );
    equal(
        &rt,
        found.as_str(),
        "4/3|4/3  |  4/3|4/|18446744073709551615/18446744073709551615",
    );
}
