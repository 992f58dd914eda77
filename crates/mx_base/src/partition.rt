ghost use Rattle.std.specs.Prelude.{◌≡◌, ◌↔◌, IfOk, IsErrOf, IsTrue, Some, refl};
ghost use Rattle.std.specs.Cmp as Cmp;
ghost use Rattle.std.specs.Cmp.Lexicographic.{slice_cmp, nat_list_eq_equiv, nat_list_cmp_total, texts_po, texts_ties};
ghost use Rattle.std.specs.Ordering.{nat_cmp};
ghost use Rattle.std.specs.Bool.{◌==◌};
ghost use lib.Pointwise.{pointwise};
ghost use Rattle.mx_base.specs.Names.{IsPartition};
ghost use Rattle.mx_base.specs.declared.path.NameError.TheVariants.{BadName};

use crate::grammar::is_partition;
use crate::path::NameError;
use mx_lists::{Same, Text};
use std::alloc::{AllocError, Global};
use std::cmp::Ordering;
use std::marker::Model;

/// The name of a partition. Contracts see it as the list of its bytes.
#[derive(Debug, Drop)]
pub struct Partition {
    text: Text,
}

impl Model for Partition {
    ghost use Rattle.std.specs.Prelude.{List, ℕ};
    ghost use Rattle.mx_base.specs.Names.{IsPartition};

    ghost Value = { List ℕ };

    ghost view = { λ p. p.text };

    ghost invariant = { λ p. IsPartition p.text };
}

impl Partition {
    /// The partition that a text is.
    pub fn parse(alloc: Global, text: &str) -> Result<Partition, NameError>
        ensures value { IfOk result (λ p. p ≡ text.now) }
        ensures grammar { IfOk result IsPartition }
        ensures bad { IsErrOf result BadName → ¬ (IsPartition text.now) }
    {
        if !is_partition(text.as_bytes()) {
            return Err(NameError::BadName);
        }
        Ok(Partition {
            text: Text::from_str(alloc, text)?,
        })
    }

    /// Its text.
    pub fn as_str(&self) -> &str
        ensures value { result.now ≡ self.now }
        ensures grammar { IsPartition self.now }
    {
        self.text.as_str()
    }
}

impl Same for Partition {
    fn same(&self, other: &Partition) -> bool {
        self.text.same(&other.text)
    }
}

impl Clone for Partition {
    ghost is_clone = { λ b c. c ≡ b };

    fn clone(&self) -> Result<Partition, AllocError> {
        Ok(Partition {
            text: self.text.clone()?,
        })
    }
}

impl PartialEq for Partition {
    ghost eq = { pointwise ◌==◌ };

    ghost laws = { Cmp.partial_equiv_from_equiv nat_list_eq_equiv };

    fn eq(&self, other: &Partition) -> bool {
        self.text == other.text
    }
}

impl Eq for Partition {
    ghost laws = { nat_list_eq_equiv };
}

impl PartialOrd for Partition {
    ghost partial_cmp = { λ x y. Some (slice_cmp nat_cmp x y) };

    ghost laws = { texts_po };

    fn partial_cmp(&self, other: &Partition) -> Option<Ordering> {
        Some(self.cmp(other))
    }
}

impl Ord for Partition {
    ghost cmp = { slice_cmp nat_cmp };

    ghost total = { nat_list_cmp_total };

    ghost matches_partial_cmp = { λ x y. refl };

    ghost matches_eq = { texts_ties };

    fn cmp(&self, other: &Partition) -> Ordering {
        self.text.cmp(&other.text)
    }
}
