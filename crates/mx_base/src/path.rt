ghost use Rattle.std.specs.Prelude.{◌≡◌, ◌↔◌, IfOk, IsErrOf, IsTrue, Some, codes, refl, ◌++◌};
ghost use Rattle.mx_base.specs.Digits.{instant_text};
ghost use Rattle.mx_base.specs.Names.{IsPath};
ghost use Rattle.mx_base.specs.Paths as paths;
ghost use Rattle.mx_base.specs.declared.path.NameError.TheVariants.{BadName, NoMemory};
ghost use Rattle.std.specs.Cmp as Cmp;
ghost use Rattle.std.specs.Cmp.Lexicographic.{slice_cmp, nat_list_eq_equiv, nat_list_cmp_total, texts_po, texts_ties};
ghost use Rattle.std.specs.Ordering.{nat_cmp};
ghost use Rattle.std.specs.Bool.{◌==◌};
ghost use lib.Pointwise.{pointwise};

use crate::ascii::ascii_text;
use crate::grammar::is_path;
use crate::{FileId, Instant, Partition, data_file_name};
use mx_lists::Same;
use std::alloc::{AllocError, Global};
use std::cmp::Ordering;
use std::marker::Model;

/// Why a text that is copied is no name.
#[derive(Clone, Copy, Debug, PartialEq, Eq)]
pub enum NameError {
    BadName,
    NoMemory,
}

impl From<AllocError> for NameError {
    ghost from_gives = { λ _ e. e ≡ NoMemory };

    fn from(_: AllocError) -> Self {
        NameError::NoMemory
    }
}

/// The name of an object in a store. Contracts see it as the list of its bytes.
#[derive(Debug, Drop)]
pub struct Path {
    text: String,
}

impl Model for Path {
    ghost use Rattle.std.specs.Prelude.{List, ℕ, string_bytes};
    ghost use Rattle.mx_base.specs.Names.{IsPath};

    ghost Value = { List ℕ };

    ghost view = { λ p. string_bytes p.text };

    ghost invariant = { λ p. IsPath (string_bytes p.text) };
}

impl Path {
    /// The path that a text is.
    pub fn parse(alloc: Global, text: &str) -> Result<Path, NameError>
        ensures value { IfOk result (λ p. p ≡ text.now) }
        ensures grammar { IfOk result IsPath }
        ensures bad { IsErrOf result BadName → ¬ (IsPath text.now) }
    {
        if !is_path(text) {
            return Err(NameError::BadName);
        }
        Ok(Path {
            text: String::from_str(alloc, text)?,
        })
    }

    /// The path of the commit at an instant.
    pub fn of_commit(alloc: Global, at: Instant) -> Result<Path, AllocError>
        ensures { IfOk result (λ p. p ≡ paths.commit_path at) }
    {
        let digits = at.print();
        let digits = ascii_text(&digits);
        Ok(Path {
            text: format!(in alloc; ".hoodie/{digits}.commit")?,
        })
    }

    /// The path of the log of the files partition that the commit at an instant writes.
    pub fn of_files_log(alloc: Global, at: Instant) -> Result<Path, AllocError>
        ensures { IfOk result (λ p. p ≡ paths.files_log_path at) }
    {
        let digits = at.print();
        let digits = ascii_text(&digits);
        Ok(Path {
            text: format!(in alloc; ".hoodie/metadata/files/files-0000_{digits}.log")?,
        })
    }

    /// The path of the data file that a group has at an instant.
    pub fn of_data_file(
        alloc: Global,
        partition: &Partition,
        file: &FileId,
        at: Instant,
    ) -> Result<Path, AllocError>
        ensures { IfOk result (λ p. p ≡ paths.data_path partition.now file.now at) }
    {
        let partition = partition.as_str();
        let name = data_file_name(alloc, file, at)?;
        let name = name.as_str();
        Ok(Path {
            text: format!(in alloc; "{partition}/{name}")?,
        })
    }

    /// The instant at which this is the path of a commit.
    pub fn commit_instant(&self) -> Option<Instant>
        ensures { result ≡ paths.commit_instant self.now }
    {
        let name = self.as_str().strip_prefix(".hoodie/")?;
        let digits = name.strip_suffix(".commit")?;
        match Instant::parse(digits) {
            Ok(at) if at.number() > 0 => Some(at),
            _ => None,
        }
    }

    /// The path of the config.
    pub fn of_config(alloc: Global) -> Result<Path, AllocError>
        ensures { IfOk result (λ p. p ≡ codes ".hoodie/hoodie.properties") }
    {
        Ok(Path {
            text: String::from_str(alloc, ".hoodie/hoodie.properties")?,
        })
    }

    /// The path that a front, an instant and an ending make.
    pub(crate) fn joined(
        alloc: Global,
        front: &str,
        at: Instant,
        ending: &str,
    ) -> Result<Path, AllocError>
        requires { IsPath (front.now ++ (instant_text at ++ ending.now)) }
        ensures { IfOk result (λ p. p ≡ front.now ++ (instant_text at ++ ending.now)) }
    {
        let digits = at.print();
        let digits = ascii_text(&digits);
        Ok(Path {
            text: format!(in alloc; "{front}{digits}{ending}")?,
        })
    }

    /// Its text.
    pub fn as_str(&self) -> &str
        ensures value { result.now ≡ self.now }
        ensures grammar { IsPath self.now }
    {
        self.text.as_str()
    }
}

impl Same for Path {
    fn same(&self, other: &Path) -> bool {
        self.as_str() == other.as_str()
    }
}

impl Clone for Path {
    ghost is_clone = { λ b c. c ≡ b };

    fn clone(&self) -> Result<Path, AllocError> {
        Ok(Path {
            text: self.text.clone()?,
        })
    }
}

impl PartialEq for Path {
    ghost eq = { pointwise ◌==◌ };

    ghost laws = { Cmp.partial_equiv_from_equiv nat_list_eq_equiv };

    fn eq(&self, other: &Path) -> bool {
        self.as_str() == other.as_str()
    }
}

impl Eq for Path {
    ghost laws = { nat_list_eq_equiv };
}

impl PartialOrd for Path {
    ghost partial_cmp = { λ x y. Some (slice_cmp nat_cmp x y) };

    ghost laws = { texts_po };

    fn partial_cmp(&self, other: &Path) -> Option<Ordering> {
        Some(self.cmp(other))
    }
}

impl Ord for Path {
    ghost cmp = { slice_cmp nat_cmp };

    ghost total = { nat_list_cmp_total };

    ghost matches_partial_cmp = { λ x y. refl };

    ghost matches_eq = { texts_ties };

    fn cmp(&self, other: &Path) -> Ordering {
        self.as_str().cmp(other.as_str())
    }
}
