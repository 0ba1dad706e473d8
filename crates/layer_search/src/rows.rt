//! Small searches and what they give, by the definitions alone: each is the contract of an empty function.
ghost use Rattle.std.specs.Prelude.{◌≡◌, [], ◌∷◌, ◌++◌, Some, None, codes, filter, map};
ghost use Rattle.layer_search.specs.Contents.{NoteContent};
ghost use Rattle.layer_search.specs.Examples.{driver, file, three_files, two_folders, variable};
ghost use Rattle.layer_search.specs.Folders.{folders_of};
ghost use Rattle.layer_search.specs.Found.{driver_paths, drivers_of, file_name, is_kept, layer_paths};
ghost use Rattle.layer_search.specs.declared.found.NoteKind.TheVariants.{Absent};
ghost use Rattle.layer_search.specs.declared.kinds.SearchKind.TheVariants.{Driver};
ghost use Rattle.manifest_reader.specs.declared.entries.LayerKind.TheVariants.{Explicit};

/// Without variables the folders are those of the system.
pub fn the_folders_without_variables()
    ensures { folders_of Driver [] ≡ codes "/etc/xdg/vulkan/icd.d" ∷ codes "/etc/vulkan/icd.d"
        ∷ codes "/usr/local/share/vulkan/icd.d" ∷ codes "/usr/share/vulkan/icd.d" ∷ [] }
{}

/// Folders come in their order, and the names in one in byte order.
pub fn two_folders_in_order()
    ensures { driver_paths three_files two_folders [] ≡ codes "/a/vulkan/icd.d/y.json" ∷ codes "/a/vulkan/icd.d/z.json"
        ∷ codes "/b/vulkan/icd.d/x.json" ∷ [] }
{}

/// Where a variable replaces the folders, the one that adds to them isn't read.
pub fn a_file_in_place_of_the_folders()
    ensures { driver_paths three_files (variable (codes "VK_DRIVER_FILES") (codes "/b/vulkan/icd.d/x.json")
        ∷ variable (codes "VK_ADD_DRIVER_FILES") (codes "/a/vulkan/icd.d") ∷ two_folders) []
        ≡ codes "/b/vulkan/icd.d/x.json" ∷ [] }
{}

/// A folder that is added stands in front, and each path counts once.
pub fn a_folder_in_front_of_the_folders()
    ensures { driver_paths three_files (variable (codes "VK_ADD_DRIVER_FILES") (codes "/b/vulkan/icd.d") ∷ two_folders) []
        ≡ codes "/b/vulkan/icd.d/x.json" ∷ codes "/a/vulkan/icd.d/y.json" ∷ codes "/a/vulkan/icd.d/z.json" ∷ [] }
{}

/// A driver that is selected and disabled is removed, in whatever case the glob is written.
pub fn a_selected_driver_is_disabled()
    ensures { filter (is_kept (variable (codes "VK_LOADER_DRIVERS_SELECT") (codes "*")
        ∷ variable (codes "VK_LOADER_DRIVERS_DISABLE") (codes "Y*") ∷ []))
        (driver (codes "/a/y.json") ∷ driver (codes "/a/z.json") ∷ driver (codes "/b/x.json") ∷ [])
        ≡ driver (codes "/a/z.json") ∷ driver (codes "/b/x.json") ∷ [] }
{}

/// A file that is named and absent gives a note.
pub fn a_named_file_is_absent()
    ensures { drivers_of [] (variable (codes "VK_DRIVER_FILES") (codes "/none.json") ∷ []) []
        ≡ record { list = []; notes = record { kind = Absent; path = codes "/none.json" } ∷ [] } }
{}

/// A root stands in front of what the tree is asked for, and in no path of the answer.
pub fn a_root_stands_in_no_path()
    ensures { driver_paths (file (codes "/r/a/vulkan/icd.d/y.json") ∷ three_files) two_folders (codes "/r")
        ≡ codes "/a/vulkan/icd.d/y.json" ∷ [] }
{}

/// Folders that are given are folders, also where one ends as a file does; of names, those that end in `.json` count.
pub fn folders_that_are_given()
    ensures { layer_paths (map file (codes "d.json/a.json" ∷ codes "d.json/B.json" ∷ codes "d.json/.json" ∷ codes "d.json/c.JSON"
        ∷ codes "d.json/x.json.bak" ∷ [])) [] [] Explicit (Some (codes "d.json" ∷ []))
        ≡ codes "d.json/.json" ∷ codes "d.json/B.json" ∷ codes "d.json/a.json" ∷ [] }
{}
