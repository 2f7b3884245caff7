// Laws of the records that a turn keeps, and of books. The functions do nothing: their contracts are the laws.
ghost use Rattle.store_commit.specs.Agreed.{AgreedLaw, KeptFitLaw};
ghost use Rattle.store_commit.specs.Ready.{ReadyLaw, TrueAfterLaw};

use edge_disk::Disk;

/// The records at or above a log's greatest closed choice agree with the log, and so it goes on with one record more, where
/// that doesn't lower the choice.
pub fn agreed_law()
    ensures { AgreedLaw }
{}

/// The records at or above a choice fit behind one another, where the log's do.
pub fn kept_fit_law()
    ensures { KeptFitLaw }
{}

/// A store with true books, of which no number is too large, is ready to commit each record in range behind its log, with
/// blocks that aren't in use and pages that are held. It is the books' kept records to which the log is turned.
pub fn ready_law<D: Disk>()
    ensures { D.tells → ReadyLaw D.Disk }
{}

/// True books stay true through a commit that succeeds: one record more stands behind the log, and what is stored are the
/// kept records of the new books, of which the greatest closed choice may have risen.
pub fn true_after_law<D: Disk>()
    ensures { D.tells → TrueAfterLaw D.Disk }
{}
