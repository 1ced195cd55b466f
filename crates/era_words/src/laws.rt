//! What holds of words alone: they ask for one job at most; and for each command words that ask for a job, and words that
//! are no command.

ghost use Rattle.std.specs.Prelude.{[], ◌∷◌, true, false, codes};
ghost use Rattle.era_words.specs.Laws.{AskForOneJob, small_target};
ghost use Rattle.era_words.specs.Words.{IsJob, IsNoJob};

use crate::job::Job;

/// Words ask for one job at most.
pub fn one_job()
    ensures { AskForOneJob }
{}

/// A session has 4 stripes and no digest steps where no option is given, and wants a table line.
pub fn serve_example()
    ensures asked { IsJob (codes "serve" ∷ codes "0 8 era m o 8" ∷ [])
        (Job.Serve small_target 4 0) }
    ensures refused { IsNoJob (codes "serve" ∷ []) }
{}

/// A load takes its options before and behind its words.
pub fn load_example()
    ensures asked { IsJob (codes "load" ∷ codes "--stripes" ∷ codes "9" ∷ codes "0 8 era m o 8"
        ∷ codes "7" ∷ []) (Job.Load small_target 7 9) }
    ensures refused { IsNoJob (codes "load" ∷ codes "0 8 era m o 8" ∷ []) }
{}

/// A need is of a length and a block size, in this order.
pub fn need_example()
    ensures asked { IsJob (codes "need" ∷ codes "9" ∷ codes "8" ∷ []) (Job.Need 9 8) }
    ensures refused { IsNoJob (codes "need" ∷ codes "9" ∷ []) }
{}

/// An era stands behind its option or behind `=` in the same word, and has to be given.
pub fn invalidate_example()
    ensures asked { IsJob (codes "invalidate" ∷ codes "m" ∷ codes "--metadata-snapshot"
        ∷ codes "--written-since=3" ∷ []) (Job.Invalidate (codes "m") 3 true) }
    ensures refused { IsNoJob (codes "invalidate" ∷ codes "m" ∷ []) }
{}

/// A check has one word, which may begin with `-` behind `--`.
pub fn check_example()
    ensures asked { IsJob (codes "check" ∷ codes "--" ∷ codes "-m" ∷ []) (Job.Check (codes "-m")) }
    ensures refused { IsNoJob (codes "check" ∷ codes "m" ∷ codes "m" ∷ []) }
{}

/// A flag that isn't given is false, and takes no value.
pub fn dump_example()
    ensures asked { IsJob (codes "dump" ∷ codes "m" ∷ []) (Job.Dump (codes "m") false) }
    ensures refused { IsNoJob (codes "dump" ∷ codes "m" ∷ codes "--logical=true" ∷ []) }
{}

/// A restore has the name of a device, which may be empty.
pub fn restore_example()
    ensures asked { IsJob (codes "restore" ∷ codes "" ∷ []) (Job.Restore (codes "")) }
    ensures refused { IsNoJob (codes "restore" ∷ codes "--help" ∷ []) }
{}

/// A backup has two devices, the metadata's first, and an era, which is given once.
pub fn backup_example()
    ensures asked { IsJob (codes "backup" ∷ codes "m" ∷ codes "--written-since" ∷ codes "0"
        ∷ codes "o" ∷ []) (Job.Backup (codes "m") (codes "o") 0) }
    ensures refused { IsNoJob (codes "backup" ∷ codes "m" ∷ codes "o" ∷ codes "--written-since=0"
        ∷ codes "--written-since=0" ∷ []) }
{}

/// An applying has the name of an origin, and `-` is a name.
pub fn apply_example()
    ensures asked { IsJob (codes "apply" ∷ codes "-" ∷ []) (Job.Apply (codes "-")) }
    ensures refused { IsNoJob (codes "apply" ∷ codes "--origin" ∷ codes "o" ∷ []) }
{}
