//! Laws of any messages and of the reports of them. The functions have no code: a call gives its caller, in another crate,
//! what the clauses state.

ghost use Rattle.std.specs.Cmp.{IsEquivalence};
ghost use Rattle.std.specs.Prelude.{◌≡◌, ◌≤◌, ◌*◌, ◌↔◌, ℕ, Bool, List, Some, All, Contains, length, map, IsTrue};
ghost use Rattle.std.specs.List.{flat_map};
ghost use Rattle.simplex_base.specs.Positions.{Round};
ghost use Rattle.simplex_base.specs.Format.{format_of};
ghost use Rattle.simplex_scheme.specs.Subject.{round_of};
ghost use Rattle.simplex_votes.specs.Votes.{SignedVote};
ghost use Rattle.simplex_evidence.specs.Activity.{activity_encoding, contents_of};
ghost use Rattle.simplex_evidence.specs.Contents.{AreInConflict};
ghost use Rattle.simplex_evidence.specs.Contradiction as contradiction;
ghost use Rattle.simplex_evidence.specs.declared.types.activity.Activity.{Activity};
ghost use Rattle.simplex_scheme.specs.Committees.{Schedule, committee_of};
ghost use Rattle.simplex_rules.specs.declared.judging.Judging.{Judging};
ghost use Rattle.simplex_rules.specs.declared.judging.Judging.TheVariants.{Claimed, From};
ghost use Rattle.simplex_rules.specs.Evidence.{IsEvidence, IsEquivocation};
ghost use Rattle.simplex_rules.specs.Independence.{FloorParts, FloorsRise, IsOfOneRound, OthersStay, PartsAddUp, RoundsAreIndependent, in_rounds, is_from, of_rounds, splits_within};
ghost use Rattle.simplex_rules.specs.Interchange.{AreInterchangeable, HaveSameState, SameStateAmong, SameStateJoined};
ghost use Rattle.simplex_rules.specs.News.{CompactsNext, FewAreKept, IsCompaction, LogsCompact, NewsChangesState, VotesCanStandAlone};
ghost use Rattle.simplex_rules.specs.Recorded.{RecordedAreSlots, FewAreRecorded, recorded_in, votes_recorded};
ghost use Rattle.simplex_rules.specs.Laws.{EvidenceIsUnique, AccusesExactly, ReorderingAccusesSame, AccusedStay, IsEvidenceAgain};
ghost use Rattle.simplex_rules.specs.Rules.{Rules, AreLawful, HaveCommittees, valid_votes};
ghost use Rattle.simplex_rules.specs.Arising.{splits_arising};
ghost use Rattle.simplex_rules.specs.Splits.{AreSplits};
ghost use Rattle.simplex_rules.specs.Agreement.{SuspectsDecide};
ghost use Rattle.simplex_rules.specs.Stays.{EvidenceStays};
ghost use Rattle.simplex_rules.specs.declared.evidence.SignerInRound.{SignerInRound};
ghost use Rattle.simplex_rules.specs.Suspects.{claimed, suspect_of, is_suspect, is_suspect_round, NobodyIsSuspect, SuspectsDetermineReports, SuspectsSuffice};
ghost use Rattle.simplex_rules.specs.SplitLaws.{EnoughAreAccused, SignersAreAccountable, SplitsAreUnique, SplitsHaveAccused};
ghost use Rattle.simplex_rules.specs.Values.{evidence_value};
ghost use Rattle.simplex_rules.specs.declared.evidence.Evidence.{Evidence};
ghost use Rattle.simplex_rules.specs.declared.split.Split.{Split};

use simplex_base::codec::Read;
use simplex_rules::rules::Judges;
use simplex_scheme::scheme::{CertificateScheme, Digest, Listing};

/// Committees with participants judge lawfully: the signer of a valid signature is in the committee of the epoch, and a
/// certificate that certifies a subject lists a quorum of that committee. An epoch without a committee has no valid vote and
/// no certified subject, however strictly it is judged.
pub fn committees_are_lawful<S: Listing<D>, D: Digest>()
    ensures lawful { (schedule : Schedule S) →
        ((epoch : ℕ) (committee : S) → committee_of schedule epoch ≡ Some committee →
        1 ≤ length (S.keys committee)) →
        AreLawful (⟦<S as Judges<D>>⟧.rules schedule) }
    ensures committees { (judging : Judging) (schedule : Schedule S) →
        ((epoch : ℕ) (committee : S) → committee_of schedule epoch ≡ Some committee →
        1 ≤ length (S.keys committee)) →
        HaveCommittees (⟦<S as Judges<D>>⟧.rules_under judging schedule) }
{}

/// Which signers are accused does not depend on the order of the messages, and further messages leave them accused.
pub fn accused_stay<S: CertificateScheme, D: Digest>()
    ensures any_order { (rules : Rules S D S.Certificate S.PublicKey S.Signature)
        (messages : List (Activity S D S.Certificate S.PublicKey S.Signature)) →
        ReorderingAccusesSame rules messages }
    ensures later { (rules : Rules S D S.Certificate S.PublicKey S.Signature)
        (messages : List (Activity S D S.Certificate S.PublicKey S.Signature)) →
        AccusedStay rules messages }
{}

/// The evidence of votes accuses exactly those whom the votes accuse, each by two of the votes that contradict, and is
/// unique. As messages of its own it has the same evidence.
pub fn evidence_is_determined<S: CertificateScheme, D: Digest>()
    ensures names { (vs : List (SignedVote D S.Signature))
        (es : List (contradiction.Equivocation D S.Signature)) → IsEvidence D.eq vs es →
        AccusesExactly D.eq vs es }
    ensures sound { (vs : List (SignedVote D S.Signature))
        (es : List (contradiction.Equivocation D S.Signature)) → IsEvidence D.eq vs es →
        All (IsEquivocation D.eq vs) es }
    ensures only { (vs : List (SignedVote D S.Signature))
        (es : List (contradiction.Equivocation D S.Signature)) → IsEvidence D.eq vs es →
        EvidenceIsUnique D.eq vs es }
    ensures again { (rules : Rules S D S.Certificate S.PublicKey S.Signature)
        (messages : List (Activity S D S.Certificate S.PublicKey S.Signature))
        (es : List (Evidence S D S.PublicKey S.Signature)) →
        AreLawful rules → IsEvidence rules.eq (valid_votes rules messages) (map evidence_value es) →
        IsEvidenceAgain rules es }
{}

/// Two certified messages that contradict accuse more participants of their round's committee than may lie: every
/// participant that signed both.
pub fn certificates_are_accountable<S: CertificateScheme, D: Digest>()
    ensures enough { (rules : Rules S D S.Certificate S.PublicKey S.Signature)
        (messages : List (Activity S D S.Certificate S.PublicKey S.Signature)) →
        AreLawful rules → EnoughAreAccused rules messages }
    ensures signers { (rules : Rules S D S.Certificate S.PublicKey S.Signature)
        (messages : List (Activity S D S.Certificate S.PublicKey S.Signature)) →
        AreLawful rules → SignersAreAccountable rules messages }
{}

/// Messages have exactly one list of splits, and in each split at least f + 1 participants are accused.
pub fn splits_are_determined<S: CertificateScheme, D: Digest>()
    ensures only { (rules : Rules S D S.Certificate S.PublicKey S.Signature)
        (messages : List (Activity S D S.Certificate S.PublicKey S.Signature))
        (splits : List Split) →
        AreSplits rules messages splits → SplitsAreUnique rules messages splits }
    ensures names { (rules : Rules S D S.Certificate S.PublicKey S.Signature)
        (messages : List (Activity S D S.Certificate S.PublicKey S.Signature))
        (splits : List Split) →
        AreLawful rules → AreSplits rules messages splits → SplitsHaveAccused splits }
{}

/// The recorded votes are, for each round, signer and kind, the earliest and, nullifies aside, the earliest with another
/// proposal: at most five of a signer in a round.
pub fn few_votes_are_recorded<S: CertificateScheme, D: Digest>()
    ensures slots { (vs : List (SignedVote D S.Signature)) → RecordedAreSlots D.eq vs }
    ensures few { (vs : List (SignedVote D S.Signature)) → FewAreRecorded D.eq vs }
    // So of a round at most five for each participant are.
    ensures round { (rules : Rules S D S.Certificate S.PublicKey S.Signature)
        (messages : List (Activity S D S.Certificate S.PublicKey S.Signature)) →
        IsEquivalence rules.eq → HaveCommittees rules → (round : Round) →
        recorded_in rules.eq (valid_votes rules messages) round ≤ 5 * rules.size round.epoch }
{}

/// No more votes of messages are recorded than their encodings have bytes, if no certificate lists more attestations
/// than its encoding has bytes.
pub fn recorded_votes_have_room<S: CertificateScheme, D: Digest>()
    ensures { (rules : Rules S D S.Certificate S.PublicKey S.Signature) →
        ((certificate : S.Certificate) →
        length (rules.listed certificate) ≤ length (S.Certificate.encoding certificate)) →
        (messages : List (Activity S D S.Certificate S.PublicKey S.Signature)) →
        votes_recorded D.eq (valid_votes rules messages) ≤
        length (flat_map (activity_encoding D.eq (format_of ⟦<D as Read>⟧) S.Certificate.encoding
        (format_of ⟦<S::Signature as Read>⟧)) messages) }
{}

/// A signer of a committee is suspect in a round where two votes that claim to be that signer's contradict, whether their
/// signatures are valid or not. Verifying only the votes of suspects and the certificates of their rounds yields the evidence
/// and the splits of all messages. Where nobody is suspect there are none.
pub fn suspects_determine_reports<S: Listing<D>, D: Digest>()
    // What is judged as `Claimed` is what the votes claim.
    ensures claims { (schedule : Schedule S) → ⟦<S as Judges<D>>⟧.rules_under Claimed schedule ≡
        claimed (⟦<S as Judges<D>>⟧.rules schedule) }
    ensures nobody { (schedule : Schedule S) → NobodyIsSuspect (⟦<S as Judges<D>>⟧.rules schedule)
        (λ judging. ⟦<S as Judges<D>>⟧.rules_under judging schedule) }
    ensures suspects { (schedule : Schedule S) → SuspectsDetermineReports
        (⟦<S as Judges<D>>⟧.rules schedule)
        (λ judging. ⟦<S as Judges<D>>⟧.rules_under judging schedule) }
{}

/// The evidence and the splits of messages depend on no signature but those of suspects in their rounds and of the
/// certificates of these rounds. The suspects are the signers of the claimed evidence, each in its round.
pub fn suspects_suffice<S: CertificateScheme, D: Digest>()
    ensures suffice { (rules : Rules S D S.Certificate S.PublicKey S.Signature)
        (messages : List (Activity S D S.Certificate S.PublicKey S.Signature)) →
        AreLawful rules → SuspectsSuffice rules messages }
    ensures rounds { (rules : Rules S D S.Certificate S.PublicKey S.Signature)
        (messages : List (Activity S D S.Certificate S.PublicKey S.Signature))
        (claims : List (contradiction.Equivocation D S.Signature)) → AreLawful rules →
        IsEvidence rules.eq (valid_votes (claimed rules) messages) claims → (round : Round) →
        Contains (map (λ e. round_of e.first.subject) claims) round ↔
        IsTrue (is_suspect_round rules messages round) }
    ensures signers { (rules : Rules S D S.Certificate S.PublicKey S.Signature)
        (messages : List (Activity S D S.Certificate S.PublicKey S.Signature))
        (claims : List (contradiction.Equivocation D S.Signature)) → AreLawful rules →
        IsEvidence rules.eq (valid_votes (claimed rules) messages) claims →
        (suspect : SignerInRound) → Contains (map suspect_of claims) suspect ↔
        IsTrue (is_suspect rules messages suspect.round suspect.signer) }
{}

/// Messages that claim the same votes have the same suspects. If the votes of suspects have the same signatures, too, and the
/// same subjects are certified in suspect rounds, they have the same evidence and the same splits.
pub fn suspects_decide<S: CertificateScheme, D: Digest>()
    ensures { (rules : Rules S D S.Certificate S.PublicKey S.Signature) → AreLawful rules →
        SuspectsDecide rules }
{}

/// Evidence once reported stays, with the same two votes, however many messages follow: each is reported once and for good.
pub fn evidence_stays<S: CertificateScheme, D: Digest>()
    ensures { (rules : Rules S D S.Certificate S.PublicKey S.Signature)
        (messages more : List (Activity S D S.Certificate S.PublicKey S.Signature)) →
        EvidenceStays rules messages more }
{}

/// Rounds are independent: rounds can be given up, or audited apart, and the report of the others stays as it is. The reports
/// of parts that make up all rounds add up to the whole report. Messages of other rounds do not change the report of a part.
pub fn rounds_are_independent<S: CertificateScheme, D: Digest>()
    ensures part { (rules : Rules S D S.Certificate S.PublicKey S.Signature)
        (messages : List (Activity S D S.Certificate S.PublicKey S.Signature))
        (part : Round → Bool) → RoundsAreIndependent rules messages part }
    ensures parts { (rules : Rules S D S.Certificate S.PublicKey S.Signature)
        (messages : List (Activity S D S.Certificate S.PublicKey S.Signature))
        (class : Round → ℕ) → PartsAddUp rules messages class }
    ensures floor { (rules : Rules S D S.Certificate S.PublicKey S.Signature)
        (messages : List (Activity S D S.Certificate S.PublicKey S.Signature))
        (floor : Round) → FloorParts rules messages floor }
    ensures others { (rules : Rules S D S.Certificate S.PublicKey S.Signature) (part : Round → Bool)
        (messages more : List (Activity S D S.Certificate S.PublicKey S.Signature)) →
        OthersStay rules part messages more }
    ensures lawful { (rules : Rules S D S.Certificate S.PublicKey S.Signature) (part : Round → Bool) →
        AreLawful rules → AreLawful (in_rounds part rules) }
    ensures committees { (rules : Rules S D S.Certificate S.PublicKey S.Signature)
        (part : Round → Bool) → HaveCommittees rules → HaveCommittees (in_rounds part rules) }
    // The splits that arise in a part of the rounds are those that arise in all rounds and are of the part.
    ensures arising { (rules : Rules S D S.Certificate S.PublicKey S.Signature) (part : Round → Bool)
        (before messages : List (Activity S D S.Certificate S.PublicKey S.Signature)) →
        splits_arising (in_rounds part rules) before messages ≡
        splits_within part (splits_arising rules before messages) }
    // Messages with the same state have the same state of a part, and the messages of the part have it alone.
    ensures state { (rules : Rules S D S.Certificate S.PublicKey S.Signature) (part : Round → Bool)
        (messages others : List (Activity S D S.Certificate S.PublicKey S.Signature)) →
        HaveSameState rules messages others → HaveSameState (in_rounds part rules) messages others }
    ensures alone { (rules : Rules S D S.Certificate S.PublicKey S.Signature) (part : Round → Bool)
        (messages : List (Activity S D S.Certificate S.PublicKey S.Signature)) →
        All (IsOfOneRound rules.listed) messages →
        HaveSameState (in_rounds part rules) (of_rounds part messages) messages }
    // The votes of a message are of one round, as two votes that contradict are.
    ensures whole { (rules : Rules S D S.Certificate S.PublicKey S.Signature)
        (message : Activity S D S.Certificate S.PublicKey S.Signature) →
        AreInConflict rules.eq (contents_of message) → IsOfOneRound rules.listed message }
{}

/// To judge from a floor on is to judge as if nothing of a round below it were valid. From the first round on everything is
/// judged, and of two floors the higher counts.
pub fn floors_rise<S: Listing<D>, D: Digest>()
    ensures judged { (schedule : Schedule S) (floor : Round) →
        ⟦<S as Judges<D>>⟧.rules_under (From floor) schedule ≡
        in_rounds (is_from floor) (⟦<S as Judges<D>>⟧.rules schedule) }
    ensures rise { (rules : Rules S D S.Certificate S.PublicKey S.Signature) → FloorsRise rules }
{}

/// Messages of which the same is recorded are interchangeable: either can be stored or sent in place of the other, with the
/// same report whatever stands before and behind. The state of joined messages is determined by the states of both.
pub fn same_state_suffices<S: CertificateScheme, D: Digest>()
    ensures among { (rules : Rules S D S.Certificate S.PublicKey S.Signature) →
        IsEquivalence rules.eq → SameStateAmong rules }
    ensures joined { (rules : Rules S D S.Certificate S.PublicKey S.Signature) →
        IsEquivalence rules.eq → SameStateJoined rules }
    ensures interchangeable { (rules : Rules S D S.Certificate S.PublicKey S.Signature)
        (messages others : List (Activity S D S.Certificate S.PublicKey S.Signature)) →
        IsEquivalence rules.eq → HaveSameState rules messages others →
        AreInterchangeable rules messages others }
{}

/// What changes nothing when it comes can go: messages, and of a certificate whose subject is no news all but its votes that
/// are news. What is left, the compaction, can stand for all messages, and compacting it again changes nothing. Of a round with
/// n participants at most 5n messages without a certificate and 3 certificates are left, however many came, and each of several
/// logs can be compacted before they are joined.
pub fn news_suffices<S: CertificateScheme, D: Digest>()
    ensures changes { (rules : Rules S D S.Certificate S.PublicKey S.Signature) →
        IsEquivalence rules.eq → NewsChangesState rules }
    ensures compaction { (rules : Rules S D S.Certificate S.PublicKey S.Signature)
        (messages : List (Activity S D S.Certificate S.PublicKey S.Signature)) →
        IsEquivalence rules.eq → IsCompaction rules messages }
    ensures next { (rules : Rules S D S.Certificate S.PublicKey S.Signature)
        (messages : List (Activity S D S.Certificate S.PublicKey S.Signature))
        (message : Activity S D S.Certificate S.PublicKey S.Signature) →
        CompactsNext rules messages message }
    ensures few { (rules : Rules S D S.Certificate S.PublicKey S.Signature)
        (messages : List (Activity S D S.Certificate S.PublicKey S.Signature)) →
        IsEquivalence rules.eq → HaveCommittees rules →
        All (IsOfOneRound rules.listed) messages → FewAreKept rules messages }
    ensures logs { (rules : Rules S D S.Certificate S.PublicKey S.Signature)
        (logs : List (List (Activity S D S.Certificate S.PublicKey S.Signature))) →
        IsEquivalence rules.eq → LogsCompact rules logs }
{}

/// If the subject of a message's certificate is no news, those of its votes that are news can be stored in its place, each as a
/// message of its own. So a certificate that is kept for a few of its votes takes no more room than these.
pub fn votes_can_stand_alone<S: CertificateScheme, D: Digest>()
    ensures { (rules : Rules S D S.Certificate S.PublicKey S.Signature) →
        IsEquivalence rules.eq → VotesCanStandAlone rules }
{}
