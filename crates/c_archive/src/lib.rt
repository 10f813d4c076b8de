// The calls `archive` and `restore` as the C functions make them: the number of the documents is returned, and there are no further answers.
// That refusals are numbers is the C interface.
#![tactic(auto)]

ghost use Rattle.std.specs.Prelude.{◌≡◌};
ghost use Rattle.archive.specs.Archives.{archive_all, restore_all};

// It has no answers besides the number.
pub fn archive(table: &[u64], aux: &[u64], out: &mut [u8]) -> u64
    ensures number { result ≡ (archive_all table.now aux.now out.old).answer.number }
    ensures bytes { out.new ≡ (archive_all table.now aux.now out.old).left }
{
    c_answers::number(archive::archive(table, aux, out))
}

// It has no answers besides the number.
pub fn restore(bytes: &[u8], table: &mut [u64], aux: &mut [u64]) -> u64
    ensures number { result ≡ (restore_all bytes.now table.old aux.old).answer.number }
    ensures table { table.new ≡ (restore_all bytes.now table.old aux.old).left.table }
    ensures aux { aux.new ≡ (restore_all bytes.now table.old aux.old).left.aux }
{
    c_answers::number(archive::restore(bytes, table, aux))
}
