ghost use Rattle.std.specs.Prelude.{◌≡◌, ◌↔◌, IfOk, IsErrOf, IsTrue, Some, refl};
ghost use Rattle.std.specs.Cmp as Cmp;
ghost use Rattle.std.specs.Cmp.Lexicographic.{slice_cmp, nat_list_eq_equiv, nat_list_cmp_total, texts_po, texts_ties};
ghost use Rattle.std.specs.Ordering.{nat_cmp};
ghost use Rattle.std.specs.Bool.{◌==◌};
ghost use lib.Pointwise.{pointwise};
ghost use Rattle.mx_base.specs.Names.{IsRecordKey};
ghost use Rattle.mx_base.specs.declared.path.NameError.TheVariants.{BadName};

use crate::grammar::is_record_key;
use crate::path::NameError;
use mx_lists::{Same, Text};
use std::alloc::{AllocError, Global};
use std::cmp::Ordering;
use std::marker::Model;

/// The key of a record: 1 to 255 bytes, none of them 0. Contracts see it as the list of its bytes.
#[derive(Debug, Drop)]
pub struct RecordKey {
    text: Text,
}

impl Model for RecordKey {
    ghost use Rattle.std.specs.Prelude.{List, ℕ};
    ghost use Rattle.mx_base.specs.Names.{IsRecordKey};

    ghost Value = { List ℕ };

    ghost view = { λ p. p.text };

    ghost invariant = { λ p. IsRecordKey p.text };
}

impl RecordKey {
    /// The key that a text is.
    pub fn parse(alloc: Global, text: &str) -> Result<RecordKey, NameError>
        ensures value { IfOk result (λ p. p ≡ text.now) }
        ensures grammar { IfOk result IsRecordKey }
        ensures bad { IsErrOf result BadName → ¬ (IsRecordKey text.now) }
    {
        if !is_record_key(text.as_bytes()) {
            return Err(NameError::BadName);
        }
        Ok(RecordKey {
            text: Text::from_str(alloc, text)?,
        })
    }

    /// Its text.
    pub fn as_str(&self) -> &str
        ensures value { result.now ≡ self.now }
        ensures grammar { IsRecordKey self.now }
    {
        self.text.as_str()
    }
}

impl Same for RecordKey {
    fn same(&self, other: &RecordKey) -> bool {
        self.text.same(&other.text)
    }
}

impl Clone for RecordKey {
    ghost is_clone = { λ b c. c ≡ b };

    fn clone(&self) -> Result<RecordKey, AllocError> {
        Ok(RecordKey {
            text: self.text.clone()?,
        })
    }
}

impl PartialEq for RecordKey {
    ghost eq = { pointwise ◌==◌ };

    ghost laws = { Cmp.partial_equiv_from_equiv nat_list_eq_equiv };

    fn eq(&self, other: &RecordKey) -> bool {
        self.text == other.text
    }
}

impl Eq for RecordKey {
    ghost laws = { nat_list_eq_equiv };
}

impl PartialOrd for RecordKey {
    ghost partial_cmp = { λ x y. Some (slice_cmp nat_cmp x y) };

    ghost laws = { texts_po };

    fn partial_cmp(&self, other: &RecordKey) -> Option<Ordering> {
        Some(self.cmp(other))
    }
}

impl Ord for RecordKey {
    ghost cmp = { slice_cmp nat_cmp };

    ghost total = { nat_list_cmp_total };

    ghost matches_partial_cmp = { λ x y. refl };

    ghost matches_eq = { texts_ties };

    fn cmp(&self, other: &RecordKey) -> Ordering {
        self.text.cmp(&other.text)
    }
}
