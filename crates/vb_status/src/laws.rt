//! What the rules of status and features come to.

ghost use Rattle.std.specs.Prelude.{◌≡◌, ℕ, true, None, [], ◌∷◌, List, IsTrue};
ghost use Rattle.vb_virtio.specs.Features.{version_1};
ghost use Rattle.vb_virtio.specs.Status.{status_refusal, contains, features_ok};
ghost use Rattle.vb_status.specs.Agreement.{StatusRequest, Agreement, Leads, AreSteps, unplugged};
ghost use Rattle.vb_status.specs.Agreement.{changes, outcome, initialisation, initialised};

/// An initialisation by ACKNOWLEDGE, DRIVER, the features, FEATURES_OK and DRIVER_OK makes any
/// device ready with these features, or meets the first refusal of FeatureNotOffered and
/// VersionMissing that holds for them; FAILED may be added then.
pub fn an_initialisation_is_refused_for_its_features_alone()
    ensures answer { (start : Agreement) (wanted : ℕ) →
        outcome start (initialisation wanted) ≡ initialised wanted }
    ensures failing { (features : ℕ) → status_refusal 3 features 131 ≡ None }
{}

/// FEATURES_OK is never set without VERSION_1.
pub fn features_ok_has_its_feature()
    ensures version { (requests : List StatusRequest) (last : Agreement)
        → Leads unplugged requests last → contains last.status features_ok ≡ true
        → IsTrue (version_1 last.features) }
{}

/// From a reset on, only ACKNOWLEDGE, DRIVER, FEATURES_OK and DRIVER_OK in this order lead to a
/// device that is ready.
pub fn one_way_leads_to_ready()
    ensures way { (requests : List StatusRequest) (last : Agreement)
        → Leads unplugged requests last → AreSteps requests → last.status ≡ 15
        → changes 0 requests ≡ 1 ∷ 3 ∷ 11 ∷ 15 ∷ [] }
{}
