ghost use Rattle.std.specs.Prelude.{◌≡◌, None, true, ◌↔◌};
ghost use Rattle.snap_call.specs.Forms.{are_spaces_where, bad_field, bad_field_with, bad_saved_field, is_config, is_config_with, is_saved_config};
ghost use Rattle.snap_call.specs.Namespaces.{is_taken};

use crate::forms::{are_namespaces, are_spaces, has_distinct_names, is_slots};
use crate::limits::{MAX_ANCESTORS, MAX_JOURNAL, MAX_NAMESPACES};
use snap_mount::is_root_text;
use snap_path::limits::MAX_LAYER_INODES;
use snap_record::{Sequence, Text};
use snap_usage::Usage;
use std::alloc::AllocError;

/// A namespace of a store: it has keys, leases and a limit of its own.
#[derive(Debug, Drop, PartialEq, Eq)]
pub struct Namespace {
    /// 1 to 255 bytes without NUL.
    pub name: Text,
    /// The most that it is charged: 0 to 2^40 of each quantity.
    pub limit: Usage,
}

/// What a store is opened with.
#[derive(Debug, Drop)]
pub struct Config {
    /// The directory that the snapshots' directories lie in, as mount descriptions name it.
    pub root: Text,
    /// At most 4096 namespaces with distinct names. A saved store's may have places that are free, without a name
    /// and with the limit 0/0.
    pub namespaces: Sequence<Namespace>,
    /// How many snapshots may be open at one time, all namespaces together: 1 to 4096.
    pub slots: u64,
    /// The most entries of the journal: 0 to 1,048,576.
    pub journal: u64,
    /// The id of the first snapshot, from 1.
    pub first_id: u32,
    /// The most inodes of each layer that is made in it, its root's one among them: 1 to 16,777,216.
    pub layer_inodes: u64,
    /// The most committed ancestors of each snapshot: 1 to 500.
    pub ancestors: u64,
}

impl Namespace {
    /// Whether it is one: a place that is free for a namespace has one without a name. Takes no memory. The
    /// cost is constant.
    pub fn is_taken(&self) -> bool
        ensures { result ≡ is_taken self.now }
    {
        !self.name.is_empty()
    }
}

/// A copy of the name.
impl Clone for Namespace {
    ghost is_clone = { λ a b. b ≡ a };

    fn clone(&self) -> Result<Namespace, AllocError> {
        Ok(Namespace {
            name: self.name.clone()?,
            limit: self.limit,
        })
    }
}

/// The parts of a configuration, in their order.
#[derive(Clone, Copy, Debug, PartialEq, Eq)]
pub enum ConfigField {
    Root,
    Namespaces,
    Slots,
    Journal,
    FirstId,
    LayerInodes,
    Ancestors,
}

impl Config {
    // The first of its parts that is malformed, where each of its namespaces may stand in a store or not.
    fn bad_part(&self, each: bool) -> Option<ConfigField>
        ensures field { result ≡ bad_field_with (are_spaces_where each self.now.namespaces) self.now }
        ensures valid { (result ≡ None) ↔ (is_config_with (are_spaces_where each self.now.namespaces) self.now ≡ true) }
    {
        if !is_root_text(self.root.as_str()) {
            return Some(ConfigField::Root);
        }
        let namespaces = self.namespaces.as_slice();
        if !each || namespaces.len() > MAX_NAMESPACES || !has_distinct_names(namespaces) {
            return Some(ConfigField::Namespaces);
        }
        if !is_slots(self.slots) {
            return Some(ConfigField::Slots);
        }
        if self.journal > MAX_JOURNAL {
            return Some(ConfigField::Journal);
        }
        if self.first_id == 0 {
            return Some(ConfigField::FirstId);
        }
        if self.layer_inodes == 0 || self.layer_inodes > MAX_LAYER_INODES as u64 {
            return Some(ConfigField::LayerInodes);
        }
        if self.ancestors == 0 || self.ancestors > MAX_ANCESTORS {
            return Some(ConfigField::Ancestors);
        }
        None
    }

    /// The first of its parts that is malformed; none where a store can be opened with it. Takes no
    /// memory. Its cost grows with the bytes of the root and of the names, and with the square of the number
    /// of namespaces.
    pub fn bad_field(&self) -> Option<ConfigField>
        ensures field { result ≡ bad_field self.now }
        ensures valid { (result ≡ None) ↔ (is_config self.now ≡ true) }
    {
        self.bad_part(are_namespaces(self.namespaces.as_slice()))
    }

    /// The first of its parts that is malformed; none where a saved store can be opened with it. Of its
    /// namespaces some may be places that are free: without a name, and with the limit 0/0. Takes no memory.
    /// Its cost is that of [`bad_field`](Self::bad_field).
    pub fn bad_saved_field(&self) -> Option<ConfigField>
        ensures field { result ≡ bad_saved_field self.now }
        ensures valid { (result ≡ None) ↔ (is_saved_config self.now ≡ true) }
    {
        self.bad_part(are_spaces(self.namespaces.as_slice()))
    }

    /// Whether a store can be opened with it. Takes no memory. Its cost is that of
    /// [`bad_field`](Self::bad_field).
    pub fn is_valid(&self) -> bool
        ensures valid { result ≡ is_config self.now }
        // With what a store can be opened with, a saved one can be opened too.
        ensures saved { is_config self.now ≡ true → is_saved_config self.now ≡ true }
    {
        self.bad_field().is_none()
    }
}
