ghost use Rattle.std.specs.Prelude.{◌≡◌, List, ℕ, ◌∷◌, ◌++◌, ◌-◌, length, Ok, None, IsTrue, Contains, nat_eq};
ghost use Rattle.std.specs.List.{starts_with};
ghost use Rattle.mx_base.specs.declared.entry.Entry.{Entry};
ghost use Rattle.mx_hfile.specs.Encoding.{blocks_of, encoding};
ghost use Rattle.mx_hfile.specs.Decoding.{Trailer, placed, index_in};
ghost use Rattle.mx_hfile.specs.Ranges.{place_at, footer_in, loaded_in, IsBlockFor, AreAllAbove, CanHold};
ghost use Rattle.mx_hfile.specs.Found.{HaveFile, HasTrailer, footer_from, index_bytes, trailer_bytes, bytes_at, index_place, places_of, value_of, footer_of_file, found_in};

/// A look-up by ranges is the look-up in the whole file.
///
/// Where the last 64 bytes read as the trailer of their file, they say the same by themselves, and the index block is
/// read to the same places or the same fault. The block that is named for a key has the value that the entries have
/// under it, or none where they have none; a key for which no block is named isn't among them. Each entry whose key
/// begins with a prefix stands in one of the blocks that can hold such a key.
pub fn one_answer()
    ensures same_trailer { (bytes : List ℕ) (t : Trailer) → HasTrailer bytes t → footer_in (trailer_bytes bytes) ≡ Ok (footer_from (length bytes) t) }
    ensures same_index { (bytes : List ℕ) (t : Trailer) → HasTrailer bytes t → loaded_in (trailer_bytes bytes) (index_bytes t bytes) ≡ placed (length bytes - 64) (index_in t.block_count t.offset (index_bytes t bytes)) }
    ensures trailer { (es : List Entry) → HaveFile es → footer_in (trailer_bytes (encoding es)) ≡ Ok (footer_of_file es) }
    ensures index { (es : List Entry) → HaveFile es → loaded_in (trailer_bytes (encoding es)) (bytes_at (index_place es) (encoding es)) ≡ Ok (places_of es) }
    ensures found { (es : List Entry) (key : List ℕ) (block : ℕ) → HaveFile es → IsBlockFor (places_of es) key block → found_in key (bytes_at (place_at (places_of es) block) (encoding es)) ≡ Ok (value_of key es) }
    ensures none { (es : List Entry) (key : List ℕ) → HaveFile es → AreAllAbove (places_of es) key → value_of key es ≡ None }
    ensures prefix { (es b : List Entry) (before after : List (List Entry)) (e : Entry) (prefix : List ℕ) → HaveFile es → blocks_of es ≡ before ++ b ∷ after → Contains b e → IsTrue (starts_with nat_eq e.key prefix) → CanHold (places_of es) prefix (length before) }
{}
