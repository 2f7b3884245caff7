// Who finds the new commits of a run. The function does nothing: its contract is a law.
ghost use Rattle.kernel_watchers.specs.Found.{CellsTellLaw, OpenedCommitsLaw, ShownCommitsLaw};

use edge_disk::Disk;

/// Who has known each entity's newest commit before, and asks behind the births and behind each look those below 64 with a newer one, ascending, for
/// their newest, finds exactly the commits that came, in their order; and so does who knows none before the run. The cells of a live kernel tell the version of
/// each entity's newest commit.
pub fn shown_commits_law<D: Disk>()
    ensures opened { OpenedCommitsLaw }
    ensures shown { ShownCommitsLaw D.Disk }
    ensures cells { CellsTellLaw D.Disk }
{}
