//! What legal acts are worth to who gathers the journal. The functions do nothing; their clauses are the laws.

ghost use Rattle.std.specs.Prelude.{◌≡◌, ◌≢◌, ◌<◌, ◌≤◌, ℕ, All, Contains, List, [], ◌∷◌, length, map};
ghost use Rattle.era_gate.specs.Acts.{Act, IsLegalFrom, lane_of, opened, reach};
ghost use Rattle.era_gate.specs.Drawn.{drawn, drawn_by_keeper, drawn_by_stripe};
ghost use Rattle.era_gate.specs.Eras.{MarkPrecedesWrite, WriteBeginsInEra, WriteEndsInEra};
ghost use Rattle.era_gate.specs.Gathered.{AllMeetRest, AreActsOf, AreGathered, AscendFrom, IsOfDrawer, account_of};
ghost use Rattle.era_gate.specs.Loose.{AreStaysOf, kept_in, loose_in, place_and_count, stays_of};
ghost use Rattle.era_gate.specs.ModelLaw.{AllMeetGate, IsLeft, MeetsGate};
ghost use Rattle.era_gate.specs.Tells.{AreCollected, Tells, WriteOwnBlocks};
ghost use Rattle.era_gate.specs.declared.parts.KeeperPart.{KeeperPart};
ghost use Rattle.era_gate.specs.declared.parts.LanePart.{LanePart};
ghost use Rattle.era_gate.specs.declared.parts.StripePart.{StripePart};
ghost use Rattle.era_gate.specs.declared.plan.Plan.{Plan};
ghost use Rattle.era_gate.specs.Receipts.{entries_for, entries_in, stays_at, stays_for, stays_in};
ghost use Rattle.era_model.specs.Journal.{AreNumberedFrom, history_after};
ghost use Rattle.era_model.specs.Legal.{IsLegal, IsLegalJournal, IsOpening, MayHappen};
ghost use Rattle.era_model.specs.declared.entry.Entry.{Entry};
ghost use Rattle.era_model.specs.declared.event.Event.{Event};
ghost use Rattle.era_model.specs.declared.history.Happening.TheVariants.{Opened};
ghost use Rattle.era_model.specs.declared.history.Happening.{Happening};
ghost use Rattle.era_model.specs.declared.journal.Journal.{Journal};
ghost use Rattle.era_model.specs.declared.opening.Opening.{Opening};

/// For acts that are legal from an opening's era and stripes, in which each stripe issues writes to its own blocks: what
/// they drew is numbered from 0, and each event meets, at its own place of the history, all of the model's conditions but
/// those that are left to who gathers the journal.
pub fn legal_acts_meet_the_model()
    ensures numbered { (acts : List Act) → AreNumberedFrom 0 (drawn 0 acts) }
    ensures model { (opening : Opening) (earlier : List Happening) (acts : List Act)
        → AreActsOf opening acts → AllMeetGate (Opened opening ∷ earlier) (drawn 0 acts) }
{}

/// An event may happen exactly where it meets what the gate answers for, and the rest is seen to.
pub fn conditions_are_shared_out()
    ensures gate { (h : List Happening) (event : Event) → MayHappen h event → MeetsGate h event }
    ensures left { (h : List Happening) (event : Event) → MayHappen h event → IsLeft h event }
    ensures whole { (h : List Happening) (event : Event) → MeetsGate h event → IsLeft h event
        → MayHappen h event }
{}

/// What a stripe and the keeper have as entries is what they drew, in order, each event with its place; so many places
/// were drawn as there are entries.
pub fn entries_are_drawn()
    ensures stripe { (d era : ℕ) (acts : List Act)
        → ((reach (opened era) acts).stripe d).entries ≡ drawn_by_stripe d 0 acts }
    ensures keeper { (era : ℕ) (acts : List Act)
        → (reach (opened era) acts).keeper.entries ≡ drawn_by_keeper 0 acts }
    ensures places { (era : ℕ) (acts : List Act)
        → (reach (opened era) acts).places ≡ length (drawn 0 acts) }
{}

/// Each entry that was drawn is of a stripe or of the keeper, and the places of each of them ascend. No place is drawn
/// by two stripes, nor by a stripe and the keeper.
pub fn each_place_has_its_drawer()
    ensures drawer { (n era : ℕ) (acts : List Act) → IsLegalFrom n (opened era) acts
        → All (IsOfDrawer n (reach (opened era) acts)) (drawn 0 acts) }
    ensures stripe { (d era : ℕ) (acts : List Act)
        → AscendFrom 0 ((reach (opened era) acts).stripe d).entries }
    ensures keeper { (era : ℕ) (acts : List Act)
        → AscendFrom 0 (reach (opened era) acts).keeper.entries }
    ensures one { (era d e : ℕ) (acts : List Act) (x y : Entry)
        → Contains ((reach (opened era) acts).stripe d).entries x
        → Contains ((reach (opened era) acts).stripe e).entries y
        → x.place ≡ y.place → d ≡ e }
    ensures apart { (era d : ℕ) (acts : List Act) (x y : Entry)
        → Contains ((reach (opened era) acts).stripe d).entries x
        → Contains (reach (opened era) acts).keeper.entries y → x.place ≢ y.place }
{}

/// Entries that are gathered from stripes and keeper are just what was drawn. So a journal of them is legal where its
/// session may open, each stripe issues writes to its own blocks, and the rest of each event's condition is met.
pub fn gathered_journals_are_legal()
    ensures drawn { (n era : ℕ) (acts : List Act) (entries : List Entry)
        → AreGathered n (reach (opened era) acts) entries → entries ≡ drawn 0 acts }
    ensures history { (opening : Opening) (earlier : List Happening) (acts : List Act)
        → IsLegal (Opened opening ∷ earlier) → AreActsOf opening acts
        → AllMeetRest (Opened opening ∷ earlier) (drawn 0 acts)
        → IsLegal (history_after (Opened opening ∷ earlier) (drawn 0 acts)) }
    ensures journal { (journal : Journal) (acts : List Act) → IsOpening journal.opening
        → AreActsOf journal.opening acts
        → AreGathered journal.opening.stripes (account_of journal.opening acts) journal.entries
        → AllMeetRest (Opened journal.opening ∷ []) journal.entries → IsLegalJournal journal }
{}

/// What is collected from the seats of a gate that ended is just what its acts drew. So a journal of it is legal where
/// its session may open, in the gate's era and with its stripes, each stripe issued writes to its own blocks, and the rest
/// of each event's condition is met.
pub fn collected_journals_are_legal()
    ensures drawn { (plan : Plan) (places : ℕ) (parts : List StripePart) (kept : KeeperPart)
        (lanes : List LanePart) (acts : List Act) (entries : List Entry)
        → Tells plan places parts kept lanes acts → AreCollected places parts kept entries
        → entries ≡ drawn 0 acts }
    ensures journal { (plan : Plan) (places : ℕ) (parts : List StripePart) (kept : KeeperPart)
        (lanes : List LanePart) (acts : List Act) (journal : Journal)
        → Tells plan places parts kept lanes acts → IsOpening journal.opening
        → journal.opening.stripes ≡ plan.stripes → journal.opening.era ≡ plan.era
        → WriteOwnBlocks journal.opening parts
        → AreCollected places parts kept journal.entries
        → AllMeetRest (Opened journal.opening ∷ []) journal.entries → IsLegalJournal journal }
{}

/// A write is issued after its block's mark in its era was stored, and all its events stand in that era: behind the
/// switch to it, and before the next one.
pub fn writes_stay_in_their_era()
    ensures mark { (n d era : ℕ) (acts : List Act) → IsLegalFrom n (opened era) acts
        → MarkPrecedesWrite (reach (opened era) acts) d }
    ensures begin { (n d era : ℕ) (acts : List Act) → IsLegalFrom n (opened era) acts
        → WriteBeginsInEra (reach (opened era) acts) d }
    ensures end { (n d era : ℕ) (acts : List Act) → IsLegalFrom n (opened era) acts
        → WriteEndsInEra (reach (opened era) acts) d }
{}

/// The receipts of a lane are just the entries of its commands, by place, and their stays, each once and in order. What
/// legal acts draw is of one of 65 lanes.
pub fn lanes_have_their_receipts()
    ensures entries { (l era : ℕ) (acts : List Act)
        → entries_in ((reach (opened era) acts).lane l) ≡ entries_for l (drawn 0 acts) }
    ensures stays { (l d era : ℕ) (acts : List Act)
        → stays_at d (stays_in ((reach (opened era) acts).lane l))
        ≡ stays_for l (stays_of (reach (opened era) acts) d) }
    ensures few { (n era : ℕ) (acts : List Act) → IsLegalFrom n (opened era) acts
        → All (λ (entry : Entry). lane_of entry.event < 65) (drawn 0 acts) }
{}

/// Each refused switch tells of one failed exchange, whose count it has, and in order. No exchange found more stripes
/// inside than there are stays with a floor up to the place of its refused switch that its caller didn't know as ended.
/// Each stripe's stays are numbered from 0, with floors that were reached.
pub fn failed_exchanges_are_bounded()
    ensures told { (n era : ℕ) (acts : List Act) → IsLegalFrom n (opened era) acts
        → map place_and_count (reach (opened era) acts).keeper.told
        ≡ kept_in (reach (opened era) acts).keeper.entries }
    ensures bounded { (n era : ℕ) (acts : List Act) → IsLegalFrom n (opened era) acts
        → All (λ told. told.miss.found
        ≤ loose_in n told.place told.miss.ended (stays_of (reach (opened era) acts)))
        (reach (opened era) acts).keeper.told }
    ensures stays { (n d era : ℕ) (acts : List Act) → IsLegalFrom n (opened era) acts
        → AreStaysOf d (reach (opened era) acts).places 0 (stays_of (reach (opened era) acts) d) }
{}
