ghost use Rattle.std.specs.Prelude.{◌≡◌, ◌↔◌, IsTrue, IsOk, IfOk, length, true};
ghost use Rattle.std.specs.List.{list_all};
ghost use Rattle.mx_base.specs.Names.{IsFileId, is_file_id_byte};

use crate::ascii::ascii_text;
use crate::instant::BadName;
use mx_lists::{Same, Text};
use std::alloc::{AllocError, Global};
use std::marker::Model;
use uuid::Uuid;

/// The id of a group of data files. Contracts see it as its text.
#[derive(Clone, Copy, Debug, PartialEq, Eq, PartialOrd, Ord)]
pub struct FileId {
    text: [u8; 36],
}

impl Model for FileId {
    ghost use Rattle.std.specs.Prelude.{List, ℕ};
    ghost use Rattle.mx_base.specs.Names.{IsFileId};

    ghost Value = { List ℕ };

    ghost view = { λ f. f.text };

    ghost invariant = { λ f. IsFileId f.text };

    ghost inverse = { λ text. record { text = text } };
}

impl FileId {
    /// The id that a text is: in lower case, with hyphens.
    pub fn parse(text: &str) -> Result<FileId, BadName>
        ensures ok { IsOk result ↔ IsFileId text.now }
        ensures value { IfOk result (λ f. f ≡ text.now) }
    {
        let Ok(id) = Uuid::parse_str(text) else {
            return Err(BadName);
        };
        let mut buffer = Uuid::encode_buffer();
        let written = id.hyphenated().encode_lower(&mut buffer);
        if written != text {
            return Err(BadName);
        }
        let mut bytes = [0u8; 36];
        bytes.copy_from_slice(written.as_bytes());
        Ok(FileId { text: bytes })
    }

    /// Its text.
    pub fn print(&self) -> [u8; 36]
        ensures value { result ≡ self.now }
        ensures grammar { IsFileId self.now }
        ensures len { length self.now ≡ 36 }
        ensures bytes { list_all is_file_id_byte self.now ≡ true }
    {
        self.text
    }
    /// Its text, copied.
    pub fn to_text(&self, alloc: Global) -> Result<Text, AllocError>
        ensures value { IfOk result (λ text. text ≡ self.now) }
        ensures grammar { IsFileId self.now }
    {
        let bytes = self.print();
        Text::from_str(alloc, ascii_text(&bytes))
    }
}

impl Same for FileId {
    fn same(&self, other: &FileId) -> bool {
        self.text == other.text
    }
}
