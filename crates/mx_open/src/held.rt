ghost use Rattle.std.specs.Prelude.{◌≡◌, IfOk, OnOk, OnErr};
ghost use Rattle.std.specs.FinMap as finmap;
ghost use Rattle.std.specs.Option.{option_copied};
ghost use Rattle.mx_store.specs.Objects.{at_path};

use mx_base::Path;
use mx_lists::{Bytes, Listed};
use std::alloc::{AllocError, Global};
use std::collections::BTreeMap;
use std::marker::Model;

/// Objects by their paths, which contracts see as a finite map.
#[derive(Drop)]
pub(crate) struct Held {
    objects: BTreeMap<Path, Bytes>,
}

impl Model for Held {
    ghost use Rattle.std.specs.FinMap as finmap;
    ghost use Rattle.std.specs.Coded.{coded_list, coded_ℕ};
    ghost use Rattle.mx_store.specs.Objects.{Objects};

    ghost Value = { Objects };

    ghost coded = { finmap.code (coded_list coded_ℕ) (coded_list coded_ℕ) };

    ghost view = { λ h. finmap.from_entries h.objects.entries };
}

impl Held {
    pub fn new(alloc: Global) -> Held
        ensures { result ≡ finmap.empty }
    {
        Held {
            objects: BTreeMap::new(alloc),
        }
    }

    /// The bytes stand at the path from here on.
    pub fn insert(&mut self, path: Path, bytes: Bytes) -> Result<(), AllocError>
        ensures ok { OnOk result (self.new ≡ finmap.insert self.old path bytes) }
        ensures err { OnErr result (self.new ≡ self.old) }
    {
        self.objects.insert(path, bytes)?;
        Ok(())
    }

    /// The bytes at the path.
    pub fn get(&self, path: &Path) -> Option<&Bytes>
        ensures { option_copied result ≡ at_path self.now path.now }
    {
        self.objects.get(path)
    }

    /// The paths, in byte order.
    pub fn paths(&self, alloc: Global) -> Result<Listed<Path>, AllocError>
        ensures { IfOk result (λ paths. paths ≡ finmap.keys self.now) }
    {
        let mut paths = Listed::new(alloc);
        for path in self.objects.keys() {
            paths.push(path.clone()?)?;
        }
        Ok(paths)
    }
}
