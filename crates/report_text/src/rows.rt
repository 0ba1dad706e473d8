//! Small notes and chains and their lines, by the definitions alone: each is the contract of an empty function.
ghost use Rattle.std.specs.Prelude.{◌≡◌, [], ◌∷◌, ◌++◌, codes, map};
ghost use Rattle.chain_build.specs.Chain.{Built, LayerNotPresent, NoDriver, Unguarded};
ghost use Rattle.layer_search.specs.declared.found.NoteKind.TheVariants as kind;
ghost use Rattle.manifest_reader.specs.declared.faults.ManifestFault.TheVariants as fault;
ghost use Rattle.manifest_reader.specs.declared.keys.Key.TheVariants as key;
ghost use Rattle.report_text.specs.Chains.{answer_text};
ghost use Rattle.report_text.specs.Examples.{note, noted_setup, small_chain};
ghost use Rattle.report_text.specs.Libraries.{library_text};
ghost use Rattle.report_text.specs.Notes.{note_text, setup_notes};

/// A path from the manifest's folder is joined to it, a name alone and a path from the root are not.
pub fn libraries_of_a_manifest()
    ensures { map (library_text (codes "/d/i/m.json")) (codes "../a.so" ∷ codes "liba.so" ∷ codes "/usr/a.so" ∷ codes "lib/" ∷ codes "/" ∷ [])
        ≡ codes "/d/i/../a.so" ∷ codes "liba.so" ∷ codes "/usr/a.so" ∷ codes "/d/i/lib/" ∷ codes "/" ∷ [] }
{}

/// The folder of a manifest ends before the last slash of its path, and is `.` where there is none.
pub fn manifests_of_a_library()
    ensures { map (λ manifest. library_text manifest (codes "b/a.so")) (codes "m.json" ∷ codes "/m.json" ∷ codes "d//m.json" ∷ [])
        ≡ codes "./b/a.so" ∷ codes "/b/a.so" ∷ codes "d//b/a.so" ∷ [] }
{}

/// A note of a key names it as the manifest spells it.
pub fn a_note_names_its_key()
    ensures { note_text (note (kind.Manifest (fault.Missing key.LibraryPath)) (codes "/d/m.json")) ≡ codes "note Missing:library_path /d/m.json\n" }
{}

/// The notes of drivers, of explicit layers and of implicit layers follow one another.
pub fn notes_before_a_chain()
    ensures { setup_notes (noted_setup (note kind.Absent (codes "a") ∷ note kind.TooLarge (codes "b") ∷ [])
        (note kind.DeviceType (codes "c") ∷ []) (note (kind.Manifest fault.OtherArch) (codes "d") ∷ []))
        ≡ codes "note Absent a\nnote TooLarge b\nnote DeviceType c\nnote OtherArch d\n" }
{}

/// A chain, line for line.
pub fn a_small_chain()
    ensures { answer_text 12 (Built small_chain) ≡ codes "chain 12 ok layers=2 parts=2 drivers=2\n"
        ++ codes "note EnvMissing none\n" ++ codes "note Off off\n"
        ++ codes "layer 1 one /l/one.json\n" ++ codes "layer 2 two two.json\n"
        ++ codes "part 1 threads two\n" ++ codes "part 2 unique two\n"
        ++ codes "driver 1 /d/a.json /d/lib/a.so\n" ++ codes "driver 2 /d/b.json libb.so\n" }
{}

/// Why there is no chain, in one line.
pub fn no_chain()
    ensures { map (answer_text 3) (LayerNotPresent (codes "one") ∷ NoDriver ∷ Unguarded (codes "two") ∷ [])
        ≡ codes "chain 3 layer-not-present one\n" ∷ codes "chain 3 no-driver\n" ∷ codes "chain 3 unguarded two\n" ∷ [] }
{}
