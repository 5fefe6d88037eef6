// What is known of a root, whoever calls the device.
ghost use Rattle.std.specs.Prelude.{◌≡◌, ◌≤◌, ◌+◌, ℕ, Bool, List, All, length, take};
ghost use Rattle.lsm_codec.specs.Manifests.{Contents, IsManifest, IsManifestOf};
ghost use Rattle.lsm_codec.specs.declared.superblock.Superblock.{Superblock};
ghost use Rattle.lsm_device.specs.Disk.{Disk, Write, seen, image, synced};
ghost use Rattle.lsm_device.specs.Runs.{grown};
ghost use Rattle.lsm_root.specs.Layout.{IsGeometry, LieInside};
ghost use Rattle.lsm_root.specs.Installed.{IsNext, IsSettled, IsReady};
ghost use Rattle.lsm_root.specs.Roots.{Names, Stands, superblock_in, root_of};

/// Laws of the root, for callers' proofs; it does nothing. The root is what the first 130 sectors make of it, writes
/// after them and crashes leave it unchanged, and a valid root is within the limits, in the version of its superblock, its tables
/// are in the data area, and the generation after its own is the next.
pub fn root_laws()
    ensures front { (c e : List (List ℕ)) → length c ≡ length e → take 130 c ≡ take 130 e
        → (root_of c ≡ root_of e) × (superblock_in c ≡ superblock_in e) }
    ensures crash { (d : Disk) → IsSettled d → (mask : List Bool)
        → root_of (image mask d) ≡ root_of (seen d) }
    ensures elsewhere { (d : Disk) (ws : List Write) → IsSettled d → All (λ w. 130 ≤ w.at) ws
        → IsSettled (grown ws d) × (root_of (seen (grown ws d)) ≡ root_of (seen d)) }
    ensures ready_elsewhere { (size log generation : ℕ) (d : Disk) (ws : List Write)
        → IsReady size log generation d → All (λ w. 130 ≤ w.at) ws
        → IsReady size log generation (grown ws d) }
    ensures ready_synced { (size log generation : ℕ) (d : Disk) → IsReady size log generation d
        → IsReady size log generation (synced d) }
    ensures next { (image : List (List ℕ)) (log : ℕ) (m : Contents) → root_of image ≡ Stands log m
        → IsNext (length image) log (m.generation + 1) (superblock_in image) }
    ensures fits { (image : List (List ℕ)) (log : ℕ) (m : Contents) → root_of image ≡ Stands log m
        → IsGeometry (length image) log × IsManifest m }
    ensures version { (image : List (List ℕ)) (log : ℕ) (m : Contents) (s : Superblock)
        → superblock_in image ≡ Names s → root_of image ≡ Stands log m → IsManifestOf s.version m }
    ensures inside { (image : List (List ℕ)) (log : ℕ) (m : Contents) → root_of image ≡ Stands log m
        → LieInside (length image) log m.tables }
{}
