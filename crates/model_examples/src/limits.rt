// Runs that show why laws of runs have their premises. The functions do nothing: the contract of each tells a run.
ghost use Rattle.std.specs.Prelude.{[], ◌∷◌, ◌≡◌, Some, false};
ghost use Rattle.model_run_laws.specs.model_kernel.Births.{next_birth};
ghost use Rattle.model_run_laws.specs.model_kernel.Histories.{IsLegalRun, commits_in, event_of, has_wish, run_after, start_run};
ghost use Rattle.model_run_laws.specs.model_kernel.Parts.{thing_at};
ghost use Rattle.model_run_laws.specs.model_kernel.Soundness.{IsSound};
ghost use Rattle.model_sound_states.specs.script_types.Rules.{IsScript};
ghost use Rattle.model_run_rules.specs.Newest.{newest_in};
ghost use Rattle.model_run_rules.specs.Wishes.{HasOpenWish};
ghost use Rattle.model_examples.specs.Beyond.{halting, if_written_twice, with_stray};
ghost use Rattle.model_examples.specs.Clash.{bears_b, clashing, with_clash, with_locus};
ghost use Rattle.model_examples.specs.Snapshots.{asks, no_tables, no_words, recorded};

/// What an entity was at a version does not stay, as entries follow, where the version is below the start's: no place has it, and what the
/// definition gives there is what the entity is last.
pub fn below_start_holds()
    ensures { ((thing_at (event_of no_words no_tables) (λ b. b.version) recorded [] 41 0).version ≡ 1)
        × ((thing_at (event_of no_words no_tables) (λ b. b.version) recorded (asks ∷ []) 41 0).version ≡ 2) }
{}

/// Where a container of an allowed script has the name of a locus that is there, a birth from a sound state may leave one that is not: a
/// container is born with a region that shows the locus.
pub fn kinds_clash_holds()
    ensures allowed { IsScript clashing }
    ensures sound { IsSound (λ x. (with_locus x).cell) }
    ensures born { next_birth no_words clashing with_locus ≡ Some (bears_b, with_clash) }
    ensures unsound { IsSound (λ x. (with_clash x).cell) → ⊥ }
{}

/// Where a start has a locus with number 64, which no sound state has, its record is none of those chosen at the start, though the rules
/// keep its version there as that of its newest commit. So after a Step of it the history tells an open wish that the rules don't see.
pub fn beyond_64_holds()
    ensures legal { IsLegalRun no_words if_written_twice with_stray no_tables halting }
    ensures newest { ((run_after no_words no_tables (start_run with_stray) halting).newest 64 ≡ 1)
        × (newest_in (commits_in no_words no_tables with_stray halting) 64 ≡ 0) }
    ensures told { HasOpenWish no_words no_tables with_stray halting 64 if_written_twice }
    ensures kept { has_wish if_written_twice (run_after no_words no_tables (start_run with_stray) halting) 64 ≡ false }
{}
