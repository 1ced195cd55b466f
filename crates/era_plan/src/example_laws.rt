//! What the definitions say of small streams that are worked out by hand. The functions do nothing; their clauses are
//! the laws.

ghost use Rattle.std.specs.Prelude.{◌≡◌, ◌+◌, ℕ, List, [], ◌∷◌, codes, length, replicate};
ghost use Rattle.era_plan.specs.Commands.{payload_of};
ghost use Rattle.era_plan.specs.Stream.{RefusedAt, Standing, no_round, stream_from, with_round, with_round_ended};
ghost use Rattle.era_model.specs.declared.command.Request.TheVariants.{Checkpoint as checkpoint, Digest as digest, Status as status};
ghost use Rattle.era_plan.specs.RowsOfStreams.{IsRefused, IsRefusedBehind, IsWhole, asked};
ghost use Rattle.era_plan.specs.declared.round.LineKind.TheVariants.{BadHex, BadNumber, LongLine, RoundBig, TooMany, Unknown};

/// Rounds come one after the other, and a command's number counts those of its lane in all rounds before.
pub fn numbers_go_on_over_rounds()
    ensures rounds { IsWhole (codes "0 status\nrun\n0 digest\n1 checkpoint\nrun\n0 checkpoint")
        ((asked 1 0 0 status ∷ []) ∷ (asked 3 0 1 digest ∷ asked 4 1 0 checkpoint ∷ [])
        ∷ (asked 6 0 2 checkpoint ∷ []) ∷ []) }
    ensures ended { IsWhole (codes "63 status\nrun\n63 status\nrun\n")
        ((asked 1 63 0 status ∷ []) ∷ (asked 3 63 1 status ∷ []) ∷ []) }
{}

/// The end of the input ends the last round, which isn't there without a command. A line `run` ends any round.
pub fn last_round_has_a_command()
    ensures none { IsWhole [] [] }
    ensures run { IsWhole (codes "run\n") ([] ∷ []) }
    ensures runs { IsWhole (codes "run\nrun\n0 status\n")
        ([] ∷ [] ∷ (asked 3 0 0 status ∷ []) ∷ []) }
{}

/// A refused line ends the stream: the rounds before it stand, and its own isn't there.
pub fn round_of_a_refused_line_is_not_there()
    ensures behind { IsRefusedBehind (codes "0 status\nrun\n1 status\n0 write 8 zz\n0 status\n")
        ((asked 1 0 0 status ∷ []) ∷ []) 4 BadHex }
    ensures first { IsRefusedBehind (codes "0 status\n0 discard 0\nrun\n") [] 2 Unknown }
{}

/// A line is refused by the first kind that applies to it.
pub fn line_is_refused_by_its_first_kind()
    ensures hex { IsRefused (codes "0 write 0 aa") BadHex }
    ensures odd { IsRefused (codes "0 write 0 aaa") BadHex }
    ensures lane { IsRefused (codes "64 status") BadNumber }
    ensures zeros { IsRefused (codes "0 list 01") BadNumber }
    ensures era { IsRefused (codes "0 list 4294967296") BadNumber }
    ensures count { IsRefused (codes "0 read 0 129") BadNumber }
    ensures none { IsRefused (codes "0 read 0 0") BadNumber }
    ensures sector { IsRefused (codes "0 write 18446744073709551616 zz") BadNumber }
{}

/// Words that fit no form are unknown, whatever numbers they have.
pub fn line_without_a_form_is_unknown()
    ensures empty { IsRefused (codes "\n") Unknown }
    ensures spaces { IsRefused (codes "0  status") Unknown }
    ensures further { IsRefused (codes "64 checkpoint 1") Unknown }
    ensures name { IsRefused (codes "0 discard 0") Unknown }
    ensures lane { IsRefused (codes "0 run") Unknown }
    ensures long { IsRefused (replicate 131201 48) LongLine }
    ensures short { IsRefused (replicate 131200 48) Unknown }
{}

/// The limits are tight, a round's come before a session's, and a line's number is tested last.
pub fn limits_are_tight()
    ensures commands { (at : Standing) (lines : List (List ℕ)) → length at.round ≡ 4096
        → stream_from (codes "0 status" ∷ lines) at ≡ no_round (RefusedAt (at.lines + 1) RoundBig) }
    ensures session { (at : Standing) (lines : List (List ℕ)) → length at.round ≡ 0
        → payload_of at.round ≡ 0 → length at.session ≡ 65536
        → stream_from (codes "0 status" ∷ lines) at ≡ no_round (RefusedAt (at.lines + 1) TooMany) }
    ensures last { (at : Standing) (lines : List (List ℕ)) → at.lines ≡ 131072
        → stream_from (codes "run" ∷ lines) at ≡ no_round (RefusedAt 131073 TooMany) }
    ensures unknown { (at : Standing) (lines : List (List ℕ)) → at.lines ≡ 131072
        → stream_from ([] ∷ lines) at ≡ no_round (RefusedAt 131073 Unknown) }
    ensures within { (at : Standing) (lines : List (List ℕ)) → at.lines ≡ 131071
        → stream_from (codes "run" ∷ lines) at
        ≡ with_round at.round (stream_from lines (with_round_ended at)) }
{}
