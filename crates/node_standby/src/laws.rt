// Laws of a standby that follows a run. The functions do nothing: the contract of each is a law.
ghost use Rattle.std.specs.Prelude.{[], ◌∷◌, ◌≡◌, ◌≤◌, ◌++◌, ℕ, List, false, length};
ghost use Rattle.edge_disk.specs.Image.{Image};
ghost use Rattle.base_types.specs.declared.histories.Entry.{Entry};
ghost use Rattle.base_types.specs.declared.histories.Event.TheVariants.{Stable};
ghost use Rattle.node_shipments.specs.Runs.{IsShipmentAt};
ghost use Rattle.node_shipments.specs.Parts.{Shipment};
ghost use Rattle.node_shipments.specs.kernel_invariant.Beginnings.{Beginning, BeginsRight, IsLegal, completed};
ghost use Rattle.node_shipments.specs.node_store.node_commits.Deliveries.{IsStandbyImage};
ghost use Rattle.node_standby.specs.Following.{Follows, IsImageBetween, MayTake, most_in};
ghost use Rattle.node_standby.specs.Outliving.{Outlives};
ghost use Rattle.node_standby.specs.Standing.{Standing};
ghost use Rattle.kernel_views.specs.store_snapshots.store_facts.State.{books};

use edge_disk::Disk;
use model_sound_cuts::stable_stays_law;

/// A standby that follows a run may take the run's next shipment, while its store works (`may`), and follows the longer run where entries are added (`more`).
pub fn following_law<D: Disk>()
    ensures may { (b : Beginning) (es : List Entry) (st : Standing D) (s : Shipment) → Follows b es D.Disk st
        → IsShipmentAt b es st.count s → (books st.store).shut ≡ false → MayTake st s }
    ensures more { (b : Beginning) (es fs : List Entry) (st : Standing D) → IsLegal b (es ++ fs) → Follows b es D.Disk st
        → Follows b (es ++ fs) D.Disk st }
{}

/// Whatever a stop may leave now of a standby that follows a run is an image of the first commits that it was sent: as many as its count tells or,
/// where its store is shut, perhaps one more.
pub fn image_law<D: Disk>()
    ensures { (b : Beginning) (es : List Entry) (st : Standing D) (c : Image) → D.tells → Follows b es D.Disk st
        → D.may_leave st.store.disk c → IsImageBetween b es st.count (most_in st) c }
{}

/// The law of takeover: an image of the first commits of a run that hold all those of a Stable is accepted, and means the state after a closed part
/// of the run, in which each event before that Stable stands. So what was acknowledged to the first node outlives its disk.
pub fn takeover_law()
    ensures { (b : Beginning) (es fs gs : List Entry) (e : Entry) (k : ℕ) (c : Image) → BeginsRight b → IsLegal b es
        → es ≡ (fs ++ e ∷ []) ++ gs → e.event ≡ Stable → length (completed b (fs ++ e ∷ [])) ≤ k → IsStandbyImage b es k c
        → Outlives b es fs c }
{
    stable_stays_law();
}
