//! What an image opens to.
ghost use Rattle.hb_store.specs.Keeps.{PartsOpen};
ghost use Rattle.hb_store.specs.Opening.{OpensToOne, OpensWhole};

use hb_log_codec::laws::groups_are_read_in_one_way;
use hb_page_codec::laws::spelling_law;
use hb_super::laws::one_superblock_is_newest;
use hb_wal::laws::an_area_is_read_in_one_way;

/// Bytes open to one file at most, and where they do no frame of their log is bad.
pub fn an_image_opens_to_one_file()
    ensures one { OpensToOne }
    ensures whole { OpensWhole }
{
    spelling_law();
    groups_are_read_in_one_way();
    one_superblock_is_newest();
    an_area_is_read_in_one_way();
}

/// Bytes that open by the parts of a store open to its durable file, or to the file after all groups that wait.
pub fn bytes_open_by_parts()
    ensures { PartsOpen }
{}
