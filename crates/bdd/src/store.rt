// A store of rows in a lent slice.
ghost use Rattle.bdd.specs.code.Store.{Store};

// The rows 1 to `used` are in canonical form and in the unique table's chains; there may be `limit` rows.
#[derive(Drop)]
pub struct RowStore<'a> {
    pub rows: &'a mut [u32],
    pub limit: usize,
    pub used: usize,
    pub ghost store: { Store rows.now limit used },
}
