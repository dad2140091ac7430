//! What follows of files from their definitions alone. Each law is the contract of a function that does nothing: a caller
//! learns it by the call.
ghost use Rattle.hb_restart.specs.Refusals.{GoodIsNotRefused, IsRefusedOnce};

use hb_log_codec::laws::groups_are_read_in_one_way;
use hb_sound::one_rule_is_named;
use hb_store::an_image_opens_to_one_file;
use hb_super::laws::one_superblock_is_newest;
use hb_wal::laws::an_area_is_read_in_one_way;

/// Bytes that open to a sound file are refused for no reason of theirs.
pub fn a_good_file_is_not_refused()
    ensures { GoodIsNotRefused }
{
    groups_are_read_in_one_way();
    one_superblock_is_newest();
    an_area_is_read_in_one_way();
    an_image_opens_to_one_file();
}

/// Bytes are refused in one way: the tests come in one order, and each has one answer.
pub fn bytes_are_refused_in_one_way()
    ensures { IsRefusedOnce }
{
    groups_are_read_in_one_way();
    one_superblock_is_newest();
    an_area_is_read_in_one_way();
    an_image_opens_to_one_file();
    one_rule_is_named();
}
