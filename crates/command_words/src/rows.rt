//! Words that are written out, and what they say. Each law is the contract of a function that does nothing.
ghost use Rattle.std.specs.Prelude.{◌≡◌, [], ◌∷◌, None, codes};
ghost use Rattle.command_words.specs.Command.{command};
ghost use Rattle.command_words.specs.Rows.{folder, sample, with_all, with_decl, with_format, with_workers};
ghost use Rattle.command_words.specs.declared.options.Format.TheVariants.{Text, Json};

/// Exactly one word names what is checked. It isn't empty and doesn't begin with `-`.
pub fn folders()
    ensures one { command (codes "d" ∷ []) ≡ folder (codes "d") }
    ensures of_a_path { command (codes "./-name" ∷ []) ≡ folder (codes "./-name") }
    ensures with_a_sign { command (codes "a=b" ∷ []) ≡ folder (codes "a=b") }
    ensures no_word { command [] ≡ None }
    ensures two { command (codes "d" ∷ codes "e" ∷ []) ≡ None }
    ensures twice { command (codes "d" ∷ codes "d" ∷ []) ≡ None }
    ensures empty { command ([] ∷ []) ≡ None }
    ensures hyphen { command (codes "-" ∷ []) ≡ None }
    ensures hyphens { command (codes "--" ∷ codes "d" ∷ []) ≡ None }
    ensures of_a_hyphen { command (codes "-name" ∷ []) ≡ None }
    ensures unknown { command (codes "--help" ∷ codes "d" ∷ []) ≡ None }
    ensures short { command (codes "-workers" ∷ codes "4" ∷ codes "d" ∷ []) ≡ None }
    ensures front { command (codes "--worker" ∷ codes "4" ∷ codes "d" ∷ []) ≡ None }
    ensures longer { command (codes "--workers4" ∷ codes "d" ∷ []) ≡ None }
    ensures in_capitals { command (codes "--WORKERS" ∷ codes "4" ∷ codes "d" ∷ []) ≡ None }
{}

/// A word that begins with `sample:` goes on with a number from 1 to 10,000.
pub fn samples()
    ensures thousand { command (codes "sample:1000" ∷ []) ≡ sample 1000 }
    ensures least { command (codes "sample:1" ∷ []) ≡ sample 1 }
    ensures greatest { command (codes "sample:10000" ∷ []) ≡ sample 10000 }
    ensures zero { command (codes "sample:0" ∷ []) ≡ None }
    ensures past { command (codes "sample:10001" ∷ []) ≡ None }
    ensures leading { command (codes "sample:01" ∷ []) ≡ None }
    ensures plus { command (codes "sample:+1" ∷ []) ≡ None }
    ensures none { command (codes "sample:" ∷ []) ≡ None }
    ensures letter { command (codes "sample:1k" ∷ []) ≡ None }
    ensures no_colon { command (codes "sample" ∷ []) ≡ folder (codes "sample") }
    ensures of_a_path { command (codes "./sample:0" ∷ []) ≡ folder (codes "./sample:0") }
{}

/// There are from 1 to 64 workers, written without a leading zero; 4 where it isn't said.
pub fn workers()
    ensures greatest { command (codes "--workers" ∷ codes "64" ∷ codes "d" ∷ []) ≡ with_workers 64 }
    ensures least { command (codes "--workers=1" ∷ codes "d" ∷ []) ≡ with_workers 1 }
    ensures behind { command (codes "d" ∷ codes "--workers" ∷ codes "10" ∷ []) ≡ with_workers 10 }
    ensures zero { command (codes "--workers" ∷ codes "0" ∷ codes "d" ∷ []) ≡ None }
    ensures leading { command (codes "--workers" ∷ codes "04" ∷ codes "d" ∷ []) ≡ None }
    ensures past { command (codes "--workers" ∷ codes "65" ∷ codes "d" ∷ []) ≡ None }
    ensures hundred { command (codes "--workers" ∷ codes "100" ∷ codes "d" ∷ []) ≡ None }
    ensures plus { command (codes "--workers" ∷ codes "+4" ∷ codes "d" ∷ []) ≡ None }
    ensures blank { command (codes "--workers= 4" ∷ codes "d" ∷ []) ≡ None }
    ensures word { command (codes "--workers" ∷ codes "d" ∷ []) ≡ None }
    ensures no_value { command (codes "d" ∷ codes "--workers" ∷ []) ≡ None }
    ensures empty { command (codes "--workers=" ∷ codes "d" ∷ []) ≡ None }
    ensures empty_word { command (codes "--workers" ∷ [] ∷ codes "d" ∷ []) ≡ None }
    ensures twice { command (codes "--workers" ∷ codes "4" ∷ codes "--workers=4" ∷ codes "d" ∷ []) ≡ None }
{}

/// Lines are text or JSON; text where it isn't said.
pub fn formats()
    ensures text { command (codes "--format" ∷ codes "text" ∷ codes "d" ∷ []) ≡ with_format Text }
    ensures json { command (codes "--format=json" ∷ codes "d" ∷ []) ≡ with_format Json }
    ensures other { command (codes "--format" ∷ codes "xml" ∷ codes "d" ∷ []) ≡ None }
    ensures in_capitals { command (codes "--format" ∷ codes "JSON" ∷ codes "d" ∷ []) ≡ None }
    ensures twice { command (codes "--format=text" ∷ codes "--format" ∷ codes "text" ∷ codes "d" ∷ []) ≡ None }
{}

/// A declaration file is any word that isn't empty and doesn't begin with `-`; the first `=` divides.
pub fn declaration_files()
    ensures next { command (codes "--decl" ∷ codes "d.luau" ∷ codes "d" ∷ []) ≡ with_decl (codes "d.luau") }
    ensures behind_sign { command (codes "--decl=d.luau" ∷ codes "d" ∷ []) ≡ with_decl (codes "d.luau") }
    ensures with_sign { command (codes "--decl=a=b" ∷ codes "d" ∷ []) ≡ with_decl (codes "a=b") }
    ensures sample { command (codes "--decl" ∷ codes "sample:0" ∷ codes "d" ∷ []) ≡ with_decl (codes "sample:0") }
    ensures hyphen { command (codes "--decl" ∷ codes "-d" ∷ codes "d" ∷ []) ≡ None }
    ensures hyphen_behind_sign { command (codes "--decl=-d" ∷ codes "d" ∷ []) ≡ None }
    ensures option { command (codes "--decl" ∷ codes "--format" ∷ codes "text" ∷ codes "d" ∷ []) ≡ None }
    ensures empty { command (codes "--decl=" ∷ codes "d" ∷ []) ≡ None }
    ensures no_folder { command (codes "--decl" ∷ codes "d" ∷ []) ≡ None }
    ensures twice { command (codes "--decl" ∷ codes "a" ∷ codes "--decl" ∷ codes "b" ∷ codes "d" ∷ []) ≡ None }
{}

/// Options stand in any order, before the folder and behind it.
pub fn options_together()
    ensures before { command (codes "--format" ∷ codes "json" ∷ codes "--decl" ∷ codes "t.luau" ∷ codes "--workers=8" ∷ codes "d" ∷ []) ≡ with_all 8 Json (codes "t.luau") }
    ensures around { command (codes "--workers" ∷ codes "8" ∷ codes "d" ∷ codes "--decl=t.luau" ∷ codes "--format=json" ∷ []) ≡ with_all 8 Json (codes "t.luau") }
{}
