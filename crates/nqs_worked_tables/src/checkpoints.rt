//! Checkpoints: which journal a root names, where a fuse falls in a change that begins with a
//! checkpoint, and what a stop leaves there of root, records and requests.
ghost use Rattle.std.specs.Prelude.{◌≡◌, codes, [], ◌∷◌, ◌++◌, map, replicate, true, false, Some};
ghost use Rattle.nqs_base.specs.declared.tear.Tear.TheVariants.{Old, New, Mixed};
ghost use Rattle.nqs_types.specs.declared.world.Which.TheVariants.{Root, First, Second, Spool};
ghost use Rattle.nqs_rules.specs.Format.{formatted};
ghost use Rattle.nqs_rules.specs.Journals.{is_second, active, resting, turned, is_due, torn_root, names_same};
ghost use Rattle.nqs_rules.specs.World.{Made, StoppedBefore, StoppedAfter, no_fuses, no_calls, new_host, used, stopped, burnt_at, called};
ghost use Rattle.nqs_worked.specs.ScheduleWords.{host, one_host};
ghost use Rattle.nqs_worked_tables.specs.Refusals.{full_house};
ghost use Rattle.nqs_worked_tables.specs.Worlds.{first_fuses};
ghost use Rattle.nqs_worked_tables.specs.Checkpoints.{journaled, only, fates_at, left, calls_left, six_tears, due_left};

/// The root's first byte names the active journal, and a checkpoint names the other one.
pub fn roots_name_journals()
    ensures second { map is_second ([] ∷ (0 ∷ []) ∷ (1 ∷ []) ∷ (2 ∷ 1 ∷ []) ∷ (3 ∷ 0 ∷ []) ∷ (254 ∷ []) ∷ (255 ∷ []) ∷ [])
        ≡ false ∷ false ∷ true ∷ false ∷ true ∷ false ∷ true ∷ [] }
    ensures active { map active ([] ∷ (0 ∷ []) ∷ (1 ∷ []) ∷ (2 ∷ 1 ∷ []) ∷ (7 ∷ []) ∷ []) ≡ First ∷ First ∷ Second ∷ First ∷ Second ∷ [] }
    ensures resting { map resting ([] ∷ (0 ∷ []) ∷ (1 ∷ []) ∷ (2 ∷ 1 ∷ []) ∷ (7 ∷ []) ∷ []) ≡ Second ∷ Second ∷ First ∷ Second ∷ First ∷ [] }
    ensures turned { map turned ([] ∷ (0 ∷ []) ∷ (1 ∷ []) ∷ (7 ∷ 5 ∷ []) ∷ (254 ∷ 5 ∷ 6 ∷ []) ∷ [])
        ≡ (1 ∷ []) ∷ (1 ∷ []) ∷ (0 ∷ []) ∷ (0 ∷ 5 ∷ []) ∷ (1 ∷ 5 ∷ 6 ∷ []) ∷ [] }
    ensures due { map (is_due false) (0 ∷ 4095 ∷ 4096 ∷ 4097 ∷ []) ++ map (is_due true) (0 ∷ 4095 ∷ 4096 ∷ [])
        ≡ false ∷ false ∷ true ∷ true ∷ true ∷ true ∷ true ∷ [] }
    ensures same { map (names_same []) ((4 ∷ []) ∷ (1 ∷ []) ∷ []) ++ map (names_same (1 ∷ [])) ((0 ∷ []) ∷ (255 ∷ []) ∷ [] ∷ [])
        ≡ true ∷ false ∷ false ∷ true ∷ false ∷ [] }
{}

/// What a tear leaves of a root in a checkpoint: of an empty one, of one byte, of two.
pub fn roots_are_torn()
    ensures empty { map (λ tear. torn_root tear []) six_tears ≡ [] ∷ (1 ∷ []) ∷ [] ∷ (1 ∷ []) ∷ [] ∷ (255 ∷ []) ∷ [] }
    ensures empty_again { map (λ n. torn_root (Mixed n) []) (4 ∷ 5 ∷ 6 ∷ 7 ∷ 9 ∷ []) ≡ [] ∷ (1 ∷ []) ∷ [] ∷ (255 ∷ []) ∷ (1 ∷ []) ∷ [] }
    ensures zero { map (λ tear. torn_root tear (0 ∷ [])) six_tears ≡ (0 ∷ []) ∷ (1 ∷ []) ∷ (0 ∷ []) ∷ (1 ∷ []) ∷ (7 ∷ []) ∷ (255 ∷ []) ∷ [] }
    ensures one { map (λ tear. torn_root tear (1 ∷ [])) six_tears ≡ (1 ∷ []) ∷ (0 ∷ []) ∷ (1 ∷ []) ∷ (0 ∷ []) ∷ (7 ∷ []) ∷ (255 ∷ []) ∷ [] }
    ensures one_again { map (λ n. torn_root (Mixed n) (1 ∷ [])) (4 ∷ 5 ∷ 6 ∷ 7 ∷ []) ≡ (1 ∷ []) ∷ (0 ∷ []) ∷ (7 ∷ []) ∷ (255 ∷ []) ∷ [] }
    ensures two { map (λ tear. torn_root tear (4 ∷ 9 ∷ [])) six_tears
        ≡ (4 ∷ 9 ∷ []) ∷ (1 ∷ 9 ∷ []) ∷ (4 ∷ 9 ∷ []) ∷ (1 ∷ 9 ∷ []) ∷ (7 ∷ 9 ∷ []) ∷ (255 ∷ 9 ∷ []) ∷ [] }
{}

/// How a change ends that begins with a checkpoint: the other journal's disk has two calls of it
/// and then four of the record, root two, the spool two; the disk of the journal that was active
/// none.
pub fn fuses_fall_in_checkpoints()
    ensures second { map (λ tear. fates_at [] 4096 tear Second) six_tears
        ≡ (replicate 6 StoppedBefore ++ Made ∷ []) ∷ (replicate 4 StoppedBefore ++ StoppedAfter ∷ StoppedAfter ∷ Made ∷ [])
        ∷ (replicate 6 StoppedBefore ++ Made ∷ []) ∷ (replicate 4 StoppedBefore ++ StoppedAfter ∷ StoppedAfter ∷ Made ∷ [])
        ∷ (replicate 6 StoppedBefore ++ Made ∷ []) ∷ (replicate 6 StoppedBefore ++ Made ∷ []) ∷ [] }
    ensures first { map (λ tear. fates_at (1 ∷ []) 4096 tear First) six_tears
        ≡ (replicate 6 StoppedBefore ++ Made ∷ []) ∷ (replicate 4 StoppedBefore ++ StoppedAfter ∷ StoppedAfter ∷ Made ∷ [])
        ∷ (replicate 6 StoppedBefore ++ Made ∷ []) ∷ (replicate 4 StoppedBefore ++ StoppedAfter ∷ StoppedAfter ∷ Made ∷ [])
        ∷ (replicate 6 StoppedBefore ++ Made ∷ []) ∷ (replicate 6 StoppedBefore ++ Made ∷ []) ∷ [] }
    ensures spared { map (λ tear. fates_at [] 4096 tear First) six_tears ++ map (λ tear. fates_at (1 ∷ []) 4096 tear Second) six_tears
        ≡ replicate 12 (replicate 7 Made) }
    ensures root { map (λ tear. fates_at [] 4096 tear Root) six_tears ++ map (λ tear. fates_at (1 ∷ []) 4096 tear Root) six_tears
        ≡ replicate 12 (StoppedBefore ∷ StoppedBefore ∷ replicate 5 Made) }
    ensures spool { map (λ tear. fates_at [] 4096 tear Spool) six_tears ≡ replicate 6 (StoppedBefore ∷ StoppedBefore ∷ replicate 5 Made) }
    ensures bytes { map (λ byte. fates_at (byte ∷ []) 4096 New Second) (0 ∷ 7 ∷ 255 ∷ [])
        ≡ (replicate 4 StoppedBefore ++ StoppedAfter ∷ StoppedAfter ∷ Made ∷ []) ∷ replicate 2 (replicate 7 Made) }
    ensures not_yet { map (fates_at [] 4095 New) (Root ∷ First ∷ Second ∷ Spool ∷ [])
        ≡ replicate 7 Made ∷ (StoppedBefore ∷ StoppedBefore ∷ StoppedAfter ∷ StoppedAfter ∷ Made ∷ Made ∷ Made ∷ []) ∷ replicate 7 Made
        ∷ (StoppedBefore ∷ StoppedBefore ∷ replicate 5 Made) ∷ [] }
    ensures not_yet_back { map (fates_at (7 ∷ []) 4095 New) (Root ∷ First ∷ Second ∷ Spool ∷ [])
        ≡ replicate 7 Made ∷ replicate 7 Made ∷ (StoppedBefore ∷ StoppedBefore ∷ StoppedAfter ∷ StoppedAfter ∷ Made ∷ Made ∷ Made ∷ [])
        ∷ (StoppedBefore ∷ StoppedBefore ∷ replicate 5 Made) ∷ [] }
    ensures later { fates_at [] 4097 New Second ≡ replicate 4 StoppedBefore ++ StoppedAfter ∷ StoppedAfter ∷ Made ∷ [] }
{}

/// What a stop in a checkpoint, or behind it in its change, leaves: the root, the number of records
/// of the journal that it names, and how many requests there are of the one that was submitted.
pub fn stops_leave_journals()
    ensures journal { map (λ k. due_left [] Second k) (1 ∷ 2 ∷ []) ≡ replicate 2 (replicate 6 ([], 4096, 0)) }
    ensures journal_back { map (λ k. due_left (7 ∷ []) First k) (1 ∷ 2 ∷ []) ≡ replicate 2 (replicate 6 (7 ∷ [], 4096, 0)) }
    ensures empty { map (due_left [] Root) (1 ∷ 2 ∷ [])
        ≡ replicate 2 (([], 4096, 0) ∷ (1 ∷ [], 0, 0) ∷ ([], 4096, 0) ∷ (1 ∷ [], 0, 0) ∷ ([], 4096, 0) ∷ (255 ∷ [], 0, 0) ∷ []) }
    ensures one { map (due_left (1 ∷ []) Root) (1 ∷ 2 ∷ [])
        ≡ replicate 2 ((1 ∷ [], 4096, 0) ∷ (0 ∷ [], 0, 0) ∷ (1 ∷ [], 4096, 0) ∷ (0 ∷ [], 0, 0) ∷ (7 ∷ [], 4096, 0) ∷ (255 ∷ [], 4096, 0) ∷ []) }
    ensures zero { map (due_left (0 ∷ []) Root) (1 ∷ 2 ∷ [])
        ≡ replicate 2 ((0 ∷ [], 4096, 0) ∷ (1 ∷ [], 0, 0) ∷ (0 ∷ [], 4096, 0) ∷ (1 ∷ [], 0, 0) ∷ (7 ∷ [], 0, 0) ∷ (255 ∷ [], 0, 0) ∷ []) }
    ensures seven { map (due_left (7 ∷ []) Root) (1 ∷ 2 ∷ [])
        ≡ replicate 2 ((7 ∷ [], 4096, 0) ∷ (0 ∷ [], 0, 0) ∷ (7 ∷ [], 4096, 0) ∷ (0 ∷ [], 0, 0) ∷ (7 ∷ [], 4096, 0) ∷ (255 ∷ [], 4096, 0) ∷ []) }
    ensures all_ones { map (due_left (255 ∷ []) Root) (1 ∷ 2 ∷ [])
        ≡ replicate 2 ((255 ∷ [], 4096, 0) ∷ (0 ∷ [], 0, 0) ∷ (255 ∷ [], 4096, 0) ∷ (0 ∷ [], 0, 0) ∷ (7 ∷ [], 4096, 0) ∷ (255 ∷ [], 4096, 0) ∷ []) }
    ensures spool { map (due_left [] Spool) (1 ∷ 2 ∷ []) ≡ replicate 2 (replicate 6 (1 ∷ [], 0, 0)) }
    ensures spool_back { map (due_left (7 ∷ 5 ∷ []) Spool) (1 ∷ 2 ∷ []) ≡ replicate 2 (replicate 6 (0 ∷ 5 ∷ [], 0, 0)) }
    ensures record { map (due_left [] Second) (3 ∷ 4 ∷ []) ≡ replicate 2 (replicate 6 (1 ∷ [], 0, 0)) }
    ensures gate { map (due_left [] Second) (5 ∷ 6 ∷ [])
        ≡ replicate 2 ((1 ∷ [], 0, 0) ∷ (1 ∷ [], 1, 1) ∷ (1 ∷ [], 0, 0) ∷ (1 ∷ [], 1, 1) ∷ (1 ∷ [], 0, 0) ∷ (1 ∷ [], 0, 0) ∷ []) }
    ensures gate_back { map (due_left (255 ∷ []) First) (5 ∷ 6 ∷ [])
        ≡ replicate 2 ((0 ∷ [], 0, 0) ∷ (0 ∷ [], 1, 1) ∷ (0 ∷ [], 0, 0) ∷ (0 ∷ [], 1, 1) ∷ (0 ∷ [], 0, 0) ∷ (0 ∷ [], 0, 0) ∷ []) }
    ensures not_yet { map (λ k. left (journaled [] 4095 (only First k) New)) (2 ∷ 3 ∷ []) ++ left (journaled (3 ∷ []) 4095 (only Second 4) Old) ∷ []
        ≡ (([], 4095, 0) ∷ []) ∷ (([], 4096, 1) ∷ []) ∷ ((3 ∷ [], 4095, 0) ∷ []) ∷ [] }
    ensures first_decides { map (λ fuses. left (journaled [] 4096 fuses New))
        (record no_fuses { root = Some 1; second = Some 2 } ∷ record no_fuses { root = Some 2; spool = Some 1 }
        ∷ record no_fuses { root = Some 2; second = Some 5 } ∷ record no_fuses { second = Some 5; spool = Some 2 }
        ∷ record no_fuses { second = Some 5; spool = Some 3 } ∷ [])
        ≡ (([], 4096, 0) ∷ []) ∷ ((1 ∷ [], 0, 0) ∷ []) ∷ ((1 ∷ [], 0, 0) ∷ []) ∷ ((1 ∷ [], 0, 0) ∷ []) ∷ ((1 ∷ [], 1, 1) ∷ []) ∷ [] }
{}

/// What a change that is made leaves: the root, one record more or the first of the other journal,
/// the request, and the calls of each disk.
pub fn changes_turn_over()
    ensures left { map (λ root. left (journaled root 4096 no_fuses Old)) ([] ∷ (1 ∷ []) ∷ (0 ∷ []) ∷ (7 ∷ 5 ∷ []) ∷ (255 ∷ []) ∷ [])
        ≡ ((1 ∷ [], 1, 1) ∷ []) ∷ ((0 ∷ [], 1, 1) ∷ []) ∷ ((1 ∷ [], 1, 1) ∷ []) ∷ ((0 ∷ 5 ∷ [], 1, 1) ∷ []) ∷ ((0 ∷ [], 1, 1) ∷ []) ∷ [] }
    ensures not_yet { map (λ root. left (journaled root 4095 no_fuses Old)) ([] ∷ (7 ∷ 5 ∷ []) ∷ [])
        ≡ (([], 4096, 1) ∷ []) ∷ ((7 ∷ 5 ∷ [], 4096, 1) ∷ []) ∷ [] }
    ensures calls { map (λ records. calls_left (journaled [] records no_fuses Old)) (4095 ∷ 4096 ∷ [])
        ≡ (record { root = 0; first = 10; second = 0; spool = 2 } ∷ []) ∷ (record { root = 2; first = 6; second = 6; spool = 2 } ∷ []) ∷ [] }
    ensures calls_back { map (λ records. calls_left (journaled (1 ∷ []) records no_fuses Old)) (4095 ∷ 4096 ∷ [])
        ≡ (record { root = 0; first = 6; second = 4; spool = 2 } ∷ []) ∷ (record { root = 2; first = 12; second = 0; spool = 2 } ∷ []) ∷ [] }
    ensures stopped_calls { calls_left (journaled [] 4096 (only Second 5) New) ≡ no_calls ∷ [] }
    ensures used { used (codes "a" ∷ []) full_house (record (new_host one_host 0) {
      tear = New;
      fuses = first_fuses;
      calls = record { root = 1; first = 2; second = 3; spool = 4 };
      root = 4 ∷ 9 ∷ [];
      records = 4096;
    }) ≡ record {
      up = true;
      state = full_house;
      told = replicate 2 (formatted (host 0) one_host);
      tear = New;
      fuses = record { root = Some 9; first = Some 12; second = Some 7; spool = Some 12 };
      calls = record { root = 3; first = 2; second = 9; spool = 6 };
      root = 1 ∷ 9 ∷ [];
      records = 1;
      is_old = false;
    } }
    ensures used_back { used [] full_house (record (new_host one_host 0) {
      tear = New;
      fuses = first_fuses;
      calls = record { root = 1; first = 2; second = 3; spool = 4 };
      root = 3 ∷ [];
      records = 5000;
    }) ≡ record {
      up = true;
      state = full_house;
      told = replicate 2 (formatted (host 0) one_host);
      tear = New;
      fuses = record { root = Some 9; first = Some 6; second = Some 13; spool = Some 14 };
      calls = record { root = 3; first = 8; second = 3; spool = 4 };
      root = 0 ∷ [];
      records = 1;
      is_old = false;
    } }
    ensures carried_over { used [] full_house (record (new_host one_host 0) {
      tear = New;
      fuses = first_fuses;
      calls = record { root = 1; first = 2; second = 3; spool = 4 };
      records = 2;
      is_old = true;
    }) ≡ record {
      up = true;
      state = full_house;
      told = replicate 2 (formatted (host 0) one_host);
      tear = New;
      fuses = record { root = Some 9; first = Some 12; second = Some 7; spool = Some 14 };
      calls = record { root = 3; first = 2; second = 9; spool = 4 };
      root = 1 ∷ [];
      records = 1;
      is_old = false;
    } }
    ensures disks { map (λ disk. burnt_at disk 4 first_fuses) (Root ∷ First ∷ Second ∷ Spool ∷ [])
        ≡ record first_fuses { root = Some 7 } ∷ record first_fuses { first = Some 8 } ∷ record first_fuses { second = Some 9 }
        ∷ record first_fuses { spool = Some 10 } ∷ [] }
    ensures called { map (λ disk. called disk 4 (record { root = 1; first = 2; second = 3; spool = 5 })) (Root ∷ First ∷ Second ∷ Spool ∷ [])
        ≡ record { root = 5; first = 2; second = 3; spool = 5 } ∷ record { root = 1; first = 6; second = 3; spool = 5 }
        ∷ record { root = 1; first = 2; second = 7; spool = 5 } ∷ record { root = 1; first = 2; second = 3; spool = 9 } ∷ [] }
    ensures kept_by_a_stop { stopped full_house (journaled (9 ∷ []) 41 first_fuses New) ≡ record {
      up = false;
      state = full_house;
      told = [];
      tear = New;
      fuses = no_fuses;
      calls = no_calls;
      root = 9 ∷ [];
      records = 41;
      is_old = false;
    } }
{}
