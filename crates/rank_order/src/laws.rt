// What holds of the service of every plan.

ghost use Rattle.std.specs.Prelude.{◌≡◌, ◌⊎◌, ℕ, Option};
ghost use Rattle.dbp_plan.specs.declared.plan.Plan.{Plan};
ghost use Rattle.rank_order.specs.Ends.{IsEnd, IsOverrun, NoOverrun};
ghost use Rattle.rank_order.specs.Instances.{Instance, IsInstance};
ghost use Rattle.rank_order.specs.Service.{IsService};
ghost use Rattle.rank_order.specs.ServiceOf.{service};

/// Each plan says of each tick which instance is served, and there is one service that meets what it says.
pub fn each_plan_has_one_service()
    ensures there { (p : Plan) → IsService p (service p) }
    ensures only { (p : Plan) (serve : ℕ → Option Instance) → IsService p serve
        → (t : ℕ) → serve t ≡ service p t }
{}

/// Each instance ends at one time at most.
pub fn a_service_has_one_end_of_each_instance()
    ensures { (serve : ℕ → Option Instance) (x : Instance) (e f : ℕ)
        → IsEnd serve x e → IsEnd serve x f → e ≡ f }
{}

/// In the service of each plan each instance has an end.
pub fn each_instance_ends()
    ensures { (p : Plan) (serve : ℕ → Option Instance) (x : Instance) → IsService p serve
        → IsInstance p x → (e : ℕ) × IsEnd serve x e }
{}

/// Whatever is left of the instances, either no release comes too early or there is an overrun, of one time and one
/// instance.
pub fn a_service_has_one_overrun()
    ensures there { (p : Plan) (left : Instance → ℕ → ℕ)
        → NoOverrun p left ⊎ ((t : ℕ) × (x : Instance) × IsOverrun p left t x) }
    ensures time { (p : Plan) (left : Instance → ℕ → ℕ) (t u : ℕ) (x y : Instance)
        → IsOverrun p left t x → IsOverrun p left u y → t ≡ u }
    ensures instance { (p : Plan) (left : Instance → ℕ → ℕ) (t u : ℕ) (x y : Instance)
        → IsOverrun p left t x → IsOverrun p left u y → x ≡ y }
{}
