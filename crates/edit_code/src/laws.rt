//! Laws of the codes, with nothing to run.
ghost use Rattle.std.specs.Prelude.{◌≡◌};
ghost use Rattle.byte_forms.specs.Forms.{IsForm, IsPrefixFree};
ghost use Rattle.edit_code.specs.Codes.{entry_code};
ghost use Rattle.edit_code.specs.Edits.{entry_form};
ghost use Rattle.edit_code.specs.Example.{seventh_bytes, seventh_removed, two_bytes, two_removed, words_bytes, words_linked};
ghost use Rattle.value_codes.specs.Heads.{head_form};

/// A law with nothing to run: an entry has one code and a code is that of one entry, no code of an entry begins
/// another, and so for configurations.
pub fn codes_are_apart()
    ensures entries { IsPrefixFree entry_form }
    ensures heads { IsPrefixFree head_form }
{}

/// A law with nothing to run: what is read of bytes is what their code says, a code is read again whatever follows
/// it, and where reading stops no code goes on.
pub fn codes_are_read()
    ensures entries { IsForm entry_form }
    ensures heads { IsForm head_form }
{}

/// A law with nothing to run: an entry of session 1 and line 3 that takes item 7 of the bundle b1 of s1 out has
/// these 26 bytes; one of line 4 that takes the link from item 1 to item 2 out too has these 39; and one that adds a
/// link definition from Word to Phonetic has these 31.
pub fn an_entry_in_bytes()
    ensures one { entry_code seventh_removed ≡ seventh_bytes }
    ensures several { entry_code two_removed ≡ two_bytes }
    ensures config { entry_code words_linked ≡ words_bytes }
{}
