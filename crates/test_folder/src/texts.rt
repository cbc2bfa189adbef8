//! Opens journals in folders, and keeps the texts of their segments.

ghost use Rattle.std.specs.Prelude.{◌≡◌, map, IfOk};
ghost use Rattle.rw_kept_log.specs.Journal.{Only};
ghost use Rattle.rw_kept_folder.specs.Noted.{seen_of, MayLeave};

use rw_kept_folder::{
    FolderError, FolderJournal, FolderMonitor, FolderRules, OpenFolder, open_journal,
};
use rw_kept_log::SegmentTaker;
use std::alloc::{AllocError, Global};
use std::rt::Files;
use std::time::Clock;

/// Takes segments, and keeps their texts.
#[derive(Drop)]
struct Texts {
    alloc: Global,
    texts: Vec<Vec<u8>>,
}

impl SegmentTaker for Texts {
    ghost taken = { λ t. map (λ v. v.items) t.texts.items };

    ghost Fixed = { Unit {0} };

    ghost fixed = { λ _. tt };

    fn take(&mut self, text: &[u8]) -> Result<(), AllocError> {
        let text = text.to_vec(self.alloc)?;
        self.texts.push(text)?;
        Ok(())
    }
}

/// Opens the journal in a folder, and returns it and the texts of its segments.
pub(crate) fn read_folder<R: Files + Clock + AllocGlobal + Copy>(
    rt: &R,
    dir: &str,
    rules: FolderRules,
    monitor: FolderMonitor,
) -> Result<(FolderJournal<OpenFolder<R>>, Vec<Vec<u8>>), FolderError>
    ensures { IfOk result (λ r. Only (seen_of r.0) (MayLeave r.0)) }
{
    let alloc = rt.alloc();
    let mut taken = Texts {
        alloc,
        texts: Vec::new(alloc),
    };
    let journal = open_journal(rt, dir, rules, monitor, &mut taken)?;
    Ok((journal, taken.texts))
}

/// Opens the journal in a folder.
pub(crate) fn open_folder<R: Files + Clock + AllocGlobal + Copy>(
    rt: &R,
    dir: &str,
    rules: FolderRules,
    monitor: FolderMonitor,
) -> Result<FolderJournal<OpenFolder<R>>, FolderError>
    ensures { IfOk result (λ j. Only (seen_of j) (MayLeave j)) }
{
    let (journal, _texts) = read_folder(rt, dir, rules, monitor)?;
    Ok(journal)
}
