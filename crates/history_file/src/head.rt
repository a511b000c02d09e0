//! The first bytes of a history.

ghost use Rattle.history_rules.specs.Items.{ReadsFile};
ghost use Rattle.history_file.specs.Files.{head_at};

use history_rules::HistoryFault;
use mt_bytes::Cursor;

/// What the first bytes say: the version, 1 or 2, and the profile number.
#[derive(Clone, Copy)]
pub struct Head {
    pub version: u16,
    pub profile: u16,
}

/// The first bytes, up to the profile number.
#[tactic(auto, unfolding(crate::specs::Files::head_at))]
pub fn read_head(cur: &mut Cursor) -> Result<Head, HistoryFault>
    ensures { ReadsFile head_at cur.old cur.new result }
{
    let at = cur.at();
    let magic = cur.u4()?;
    if magic != 0x4d54_4849 {
        return Err(HistoryFault::HistoryBad { at });
    }
    let at = cur.at();
    let version = cur.u2()?;
    if version != 1 && version != 2 {
        return Err(HistoryFault::HistoryBad { at });
    }
    let profile = cur.u2()?;
    Ok(Head { version, profile })
}
