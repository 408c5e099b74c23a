//! The keys that are still to come.
ghost use Rattle.std.specs.Prelude.{◌≡◌, ◌≤◌, length, vec_capacity, false, true, IfOk};
ghost use Rattle.byte_fields.specs.Spelling.{IsBytes};
ghost use Rattle.key_base.specs.Limits.{max_key_bytes};
ghost use Rattle.merge_rows.specs.Leads.{lead_of};
ghost use Rattle.merge_rows.specs.Rows.{clears};

use crate::leads::{LEAD_BYTES, compare_alike, lead_of};
use key_base::MAX_KEY_BYTES;
use std::alloc::{AllocError, Global};
use std::cmp::Ordering;
use std::marker::Model;

/// The keys from a bound on, or those above the key that was handed out last. It has room for the longest key.
#[derive(Drop)]
pub(crate) struct Floor {
    key: Vec<u8>,
    passed: bool,
    // the lead of the key
    lead: u64,
}

impl Model for Floor {
    ghost use Rattle.std.specs.Prelude.{◌≡◌, ◌≤◌, vec_capacity};
    ghost use Rattle.byte_fields.specs.Spelling.{IsBytes};
    ghost use Rattle.key_base.specs.Limits.{max_key_bytes};
    ghost use Rattle.merge_rows.specs.Leads.{lead_of};
    ghost use Rattle.merge_rows.specs.Rows.{KeyFloor};

    ghost Value = { KeyFloor };

    ghost view = { λ f. record { key = f.key.items; passed = f.passed } };

    ghost invariant = { λ f. (max_key_bytes ≤ vec_capacity f.key) × (f.lead ≡ lead_of f.key.items) × IsBytes f.key.items };
}

impl Floor {
    /// The keys from a bound on. It takes memory once, for the bound and the longest key.
    pub(crate) fn new(alloc: Global, low: &[u8]) -> Result<Floor, AllocError>
        ensures { IfOk result (λ f. f ≡ record { key = low.now; passed = false }) }
    {
        let mut key = Vec::with_capacity(alloc, low.len() + MAX_KEY_BYTES)?;
        key.extend_from_slice(low)?;
        Ok(Floor {
            key,
            passed: false,
            lead: lead_of(low),
        })
    }

    /// The lead of the bound, or of the key that was handed out last.
    pub(crate) fn lead(&self) -> u64
        ensures lead { result ≡ lead_of self.now.key }
        ensures bytes { IsBytes self.now.key }
    {
        self.lead
    }

    /// Whether the key is one of them.
    pub(crate) fn clears(&self, key: &[u8]) -> bool
        ensures { result ≡ clears self.now key.now }
    {
        let lead = lead_of(key);
        if self.lead != lead {
            return self.lead < lead;
        }
        self.clears_alike(key)
    }

    /// Whether a key with the floor's lead is one of them.
    pub(crate) fn clears_alike(&self, key: &[u8]) -> bool
        requires { lead_of self.now.key ≡ lead_of key.now }
        ensures { result ≡ clears self.now key.now }
    {
        match compare_alike(&self.key, key) {
            Ordering::Less => true,
            Ordering::Equal => !self.passed,
            Ordering::Greater => false,
        }
    }

    /// From now on the keys above this one. No memory.
    #[inline(always)]
    pub(crate) fn pass(&mut self, key: &[u8])
        requires { length key.now ≤ max_key_bytes }
        ensures { self.new ≡ record { key = key.now; passed = true } }
    {
        copy_over(key, &mut self.key);
        self.passed = true;
        self.lead = lead_of(key);
    }
}

// Copies a key over what is there, where there is room. Many keys are numbers of eight bytes: these are moved at once, with no
// call.
#[inline(always)]
fn copy_over(key: &[u8], into: &mut Vec<u8>)
    requires { length key.now ≤ vec_capacity into.old }
    ensures items { into.new.items ≡ key.now }
    ensures capacity { vec_capacity into.old ≤ vec_capacity into.new }
{
    into.clear();
    let copied = if key.len() == LEAD_BYTES {
        into.extend_from_slice(&key[..LEAD_BYTES])
    } else {
        into.extend_from_slice(key)
    };
    match copied {
        Ok(()) => {}
        Err(_) => unreachable!(),
    }
}
