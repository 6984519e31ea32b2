ghost use Rattle.std.specs.Prelude.{◌≡◌, ◌++◌, false, IfOk, IfErr, MatchBool, None, map, ◌≢◌};
ghost use Rattle.std.specs.FinMap.{entries, get, retain_keys};
ghost use Rattle.sqlite.specs.Held.{state};
ghost use Rattle.sqlite.specs.Order.{column};
ghost use Rattle.sqlite_value.specs.Order.{bytes};
ghost use Rattle.rd_tables.specs.Spellings.{natural};
ghost use Rattle.rd_store.specs.Codes.{select_in};
ghost use Rattle.rd_tables.specs.Connections.{IsOpen, Moves};
ghost use Rattle.rd_store.specs.Held.{Changes, HoldsDesk, IsOf, Judges, desk, Reads};
ghost use Rattle.rd_store.specs.Spelled.{rule_spelling};
ghost use Rattle.rd_policy.specs.Rules.{IsRule};
ghost use Rattle.rd_holdings.specs.State.{Stands, place_of, rule_of, rules_at, terms_of, with_rule, without_rule, is_at, all_rules, rules_for};
ghost use Rattle.rd_policy.specs.Verdicts.{AreInOrder};

use crate::codes;
use crate::decode::{audiences, band, effect, number_at, select, some_day_at, text_at};
use crate::faults::StoreFault;
use crate::rulebook::Rulebook;
use crate::store::Store;
use rd_policy::{Band, Rule, Select};
use sqlite::types::ToSql;
use sqlite::{Alter, Connection, Error, Row, Transaction, params};
use std::alloc::Global;

/// The rank that a row shows.
fn rank_at(row: &Row, at: usize) -> Result<u16, StoreFault>
    ensures rank { IfOk result (λ rank. rank ≡ natural (column row.now at)) }
    ensures fault { IfErr result (λ fault. fault ≡ StoreFault.Sql) }
{
    u16::try_from(number_at(row, at)?).map_err(|_| StoreFault::Sql)
}

/// The selector that a row shows.
fn select_at(row: &Row) -> Result<Select, StoreFault>
    ensures select { IfOk result (λ select. select ≡ select_in (natural (column row.now 6)) (natural (column row.now 7)) (bytes (column row.now 8))) }
    ensures fault { IfErr result (λ fault. fault ≡ StoreFault.Sql) }
{
    let how = number_at(row, 6)?;
    let number = number_at(row, 7)?;
    let word = text_at(row, 8)?;
    select(how, number, word)
}

/// The rule that a row shows.
fn read_rule(row: &Row) -> Result<Rule, StoreFault>
    ensures rule { IfOk result (λ rule. rule ≡ rule_of (rule_spelling.entry row.now)) }
    ensures fault { IfErr result (λ fault. fault ≡ StoreFault.Sql) }
{
    let band = band(number_at(row, 0)?);
    let scope = number_at(row, 1)?;
    let rank = rank_at(row, 2)?;
    let audiences = audiences(number_at(row, 3)?);
    let from = some_day_at(row, 4)?;
    let until = some_day_at(row, 5)?;
    let select = select_at(row)?;
    let effect = effect(number_at(row, 9)?);
    Ok(Rule {
        band,
        scope,
        rank,
        audiences,
        from,
        until,
        select,
        effect,
    })
}

/// The rules that rows show.
fn read_rules(alloc: Global, rows: &[Row]) -> Result<Vec<Rule>, StoreFault>
    ensures rules { IfOk result (λ rules.
        rules.items ≡ map (λ row. rule_of (rule_spelling.entry row)) rows.now) }
    ensures fault { IfErr result (λ fault. fault ≡ StoreFault.Sql) }
{
    let mut rules = Vec::new(alloc);
    for row in rows {
        let rule = read_rule(row)?;
        if rules.push(rule).is_err() {
            return Err(StoreFault::Sql);
        }
    }
    Ok(rules)
}

/// Takes a rule away, if it is there.
pub(crate) fn delete_rule<S: Alter>(
    conn: &mut Connection<S>,
    band: Band,
    scope: u32,
    rank: u16,
) -> Result<usize, Error>
    requires mode { conn.old.in_transaction ≡ false }
    requires holds { HoldsDesk (state S.Store conn.old) }
    ensures kept { HoldsDesk (state S.Store conn.new) }
    ensures changes { Changes S.Store conn.old conn.new
        (without_rule (record { band = band; scope = scope; rank = rank }) (desk S.Store conn.old)) result }
{
    let code = codes::of_band(band);
    let number = u32::from(rank);
    conn.execute(
        "DELETE FROM rule WHERE band = ?1 AND scope = ?2 AND rank = ?3",
        params![code, scope, number],
    )
}

/// Takes the rule at a rule's place away, inside a transaction.
fn delete_place<S: Alter>(tx: &mut Transaction<'_, S>, rule: &Rule) -> Result<usize, Error>
    ensures same_reference { tx.new.conn.ghost_name ≡ tx.old.conn.ghost_name }
    ensures moves { (before : _) → Moves S.Store tx.old.conn.now tx.new.conn.now
        (IsOf before) (IsOf (without_rule (place_of rule.now) before)) result }
{
    let band = codes::of_band(rule.band);
    let rank = u32::from(rule.rank);
    tx.execute(
        "DELETE FROM rule WHERE band = ?1 AND scope = ?2 AND rank = ?3",
        params![band, rule.scope, rank],
    )
}

/// Puts a rule where none stands, inside a transaction.
pub(crate) fn insert_rule<S: Alter>(
    tx: &mut Transaction<'_, S>,
    rule: &Rule,
) -> Result<usize, Error>
    ensures same_reference { tx.new.conn.ghost_name ≡ tx.old.conn.ghost_name }
    ensures moves { (before : _) → get before.rules (place_of rule.now) ≡ None → Moves S.Store tx.old.conn.now tx.new.conn.now
        (IsOf before) (IsOf (with_rule (place_of rule.now) (terms_of rule.now) before)) result }
{
    let band = codes::of_band(rule.band);
    let rank = u32::from(rule.rank);
    let audiences = codes::of_audiences(rule.audiences);
    let how = codes::how(&rule.select);
    let number = codes::number(&rule.select);
    let word = codes::word(&rule.select);
    let effect = codes::of_effect(rule.effect);
    tx.execute(
        "INSERT INTO rule (band, scope, rank, audiences, day_from, day_until, how, number, word, effect) VALUES (?1, ?2, ?3, ?4, ?5, ?6, ?7, ?8, ?9, ?10)",
        params![
            band, rule.scope, rank, audiences, rule.from, rule.until, how, number, word, effect
        ],
    )
}

/// Puts a rule, in place of one at its rank.
pub(crate) fn write_rule<S: Alter>(conn: &mut Connection<S>, rule: &Rule) -> Result<(), Error>
    requires mode { conn.old.in_transaction ≡ false }
    requires holds { HoldsDesk (state S.Store conn.old) }
    requires rule { IsRule rule.now }
    requires stands { IsOpen S.Store conn.old → Stands (desk S.Store conn.old) rule.now.band rule.now.scope }
    ensures kept { HoldsDesk (state S.Store conn.new) }
    ensures changes { Changes S.Store conn.old conn.new
        (with_rule (place_of rule.now) (terms_of rule.now) (desk S.Store conn.old)) result }
{
    let mut tx = conn.transaction();
    delete_place(&mut tx, rule)?;
    insert_rule(&mut tx, rule)?;
    tx.commit()
}

impl<S: Alter> Store<S> {
    /// The rows for the rules of a band and a number.
    fn rule_rows(&mut self, band: Band, scope: u32) -> Result<Vec<Row>, StoreFault>
        ensures reads { Reads S.Store self.old self.new result (λ rows.
            rows.items ≡ map rule_spelling.columns (entries (retain_keys (desk S.Store self.old).rules (λ place. is_at band scope place.band place.scope)))) }
        ensures fault { IfErr result (λ fault. fault ≡ StoreFault.Sql) }
    {
        let first = codes::of_band(band).to_sql();
        let second = scope.to_sql();
        self.query(
            "SELECT band, scope, rank, audiences, day_from, day_until, how, number, word, effect FROM rule WHERE band = ?1 AND scope = ?2 ORDER BY rank",
            &[first, second],
        )
    }

    /// The takedowns of an accession, or the rules of a deed, by rank. `scope` is its number, 1 to 999,999.
    ///
    /// It fails with `Sql`.
    pub fn rules_at(
        &mut self,
        alloc: Global,
        band: Band,
        scope: u32,
    ) -> Result<Vec<Rule>, StoreFault>
        ensures reads { Reads S.Store self.old self.new result (λ rules.
            rules.items ≡ rules_at (desk S.Store self.old) band scope) }
        ensures fault { IfErr result (λ fault. fault ≡ StoreFault.Sql) }
    {
        let rows = self.rule_rows(band, scope)?;
        read_rules(alloc, &rows)
    }

    /// The rows for all rules, by place.
    pub(crate) fn place_rows(&mut self) -> Result<Vec<Row>, StoreFault>
        ensures reads { Reads S.Store self.old self.new result (λ rows.
            rows.items ≡ map rule_spelling.columns (entries (desk S.Store self.old).rules)) }
        ensures fault { IfErr result (λ fault. fault ≡ StoreFault.Sql) }
    {
        self.query(
            "SELECT band, scope, rank, audiences, day_from, day_until, how, number, word, effect FROM rule ORDER BY band, scope, rank",
            &[],
        )
    }

    /// All rules, in which `Rulebook::under` finds those of an accession and a deed. It is one query.
    ///
    /// It fails with `Sql`.
    pub fn rulebook(&mut self, alloc: Global) -> Result<Rulebook, StoreFault>
        ensures reads { Reads S.Store self.old self.new result (λ rules.
            rules ≡ all_rules (desk S.Store self.old)) }
        ensures fault { IfErr result (λ fault. fault ≡ StoreFault.Sql) }
    {
        let rows = self.place_rows()?;
        let rules = read_rules(alloc, &rows)?;
        match Rulebook::of(rules) {
            Some(rulebook) => Ok(rulebook),
            None => Err(StoreFault::Sql),
        }
    }

    /// Adds the rules of a deed behind these rules.
    fn with_rules_of(
        &mut self,
        alloc: Global,
        rules: Vec<Rule>,
        deed: u32,
    ) -> Result<Vec<Rule>, StoreFault>
        ensures reads { Reads S.Store self.old self.new result (λ all.
            all.items ≡ rules.items ++ rules_at (desk S.Store self.old) Band.Deed deed) }
        ensures fault { IfErr result (λ fault. fault ≡ StoreFault.Sql) }
    {
        let mut all = rules;
        let mut more = self.rules_at(alloc, Band::Deed, deed)?;
        if all.append(&mut more).is_err() {
            return Err(StoreFault::Sql);
        }
        Ok(all)
    }

    /// The rules that decide on the files of an accession whose deed is known, both numbers 1 to
    /// 999,999: its takedowns by rank, and then the rules of the deed by rank. It does not look up
    /// whether the accession is there and has that deed.
    ///
    /// It fails with `Sql`.
    pub fn rules_under(
        &mut self,
        alloc: Global,
        acc: u32,
        deed: u32,
    ) -> Result<Vec<Rule>, StoreFault>
        ensures reads { Reads S.Store self.old self.new result (λ rules.
            rules.items ≡ rules_at (desk S.Store self.old) Band.Takedown acc ++ rules_at (desk S.Store self.old) Band.Deed deed) }
        ensures fault { IfErr result (λ fault. fault ≡ StoreFault.Sql) }
        ensures order { IsOpen S.Store self.new → IfOk result (λ rules. AreInOrder rules.items) }
    {
        let takedowns = self.rules_at(alloc, Band::Takedown, acc)?;
        self.with_rules_of(alloc, takedowns, deed)
    }

    /// The rules that decide on the files of an accession, 1 to 999,999: its takedowns by rank, and then the
    /// rules of its deed by rank; none where it is not there.
    ///
    /// It fails with `Sql`.
    pub fn rules_for(&mut self, alloc: Global, acc: u32) -> Result<Vec<Rule>, StoreFault>
        ensures reads { Reads S.Store self.old self.new result (λ rules.
            rules.items ≡ rules_for (desk S.Store self.old) acc) }
        ensures fault { IfErr result (λ fault. fault ≡ StoreFault.Sql) }
        ensures order { IsOpen S.Store self.new → IfOk result (λ rules. AreInOrder rules.items) }
    {
        // The takedowns are asked for first: then the connection is known to be open, and the register is that of the desk.
        let takedowns = self.rules_at(alloc, Band::Takedown, acc)?;
        match self.register.find(acc) {
            Some(heading) => self.with_rules_of(alloc, takedowns, heading.deed),
            None => Ok(Vec::new(alloc)),
        }
    }

    /// Whether the accession or the deed of a rule stands.
    fn stands_for(&mut self, band: Band, scope: u32) -> Result<bool, StoreFault>
        ensures reads { Reads S.Store self.old self.new result (λ stand.
            MatchBool stand (Stands (desk S.Store self.old) band scope) (¬ Stands (desk S.Store self.old) band scope)) }
        ensures fault { IfErr result (λ fault. fault ≡ StoreFault.Sql) }
    {
        match band {
            Band::Takedown => self.stands(scope),
            Band::Deed => Ok(self.deed(scope)?.is_some()),
        }
    }

    /// Puts a rule, in place of the one with its band, number and rank, if there is one. Its values are
    /// within their limits (`Rule::fits`).
    ///
    /// It fails with `Missing` where there is no such accession or deed, and with `Sql`.
    pub fn put_rule(&mut self, rule: &Rule) -> Result<(), StoreFault>
        requires rule { IsRule rule.now }
        ensures changes { Changes S.Store self.old self.new
            (with_rule (place_of rule.now) (terms_of rule.now) (desk S.Store self.old)) result }
        ensures judges { Judges S.Store self.new result (Stands (desk S.Store self.old) rule.now.band rule.now.scope) ⊥ }
        ensures fault { IfErr result (λ fault. fault ≢ StoreFault.Conflict) }
    {
        if !self.stands_for(rule.band, rule.scope)? {
            return Err(StoreFault::Missing);
        }
        self.outside_transaction()?;
        match write_rule(&mut self.conn, rule) {
            Ok(()) => Ok(()),
            Err(_) => Err(StoreFault::Sql),
        }
    }

    /// Takes away the takedown of an accession or the rule of a deed at a rank, 1 to 9,999, if there is one.
    ///
    /// It fails with `Missing` where there is no such accession or deed, and with `Sql`.
    pub fn drop_rule(&mut self, band: Band, scope: u32, rank: u16) -> Result<(), StoreFault>
        ensures changes { Changes S.Store self.old self.new
            (without_rule (record { band = band; scope = scope; rank = rank }) (desk S.Store self.old)) result }
        ensures judges { Judges S.Store self.new result (Stands (desk S.Store self.old) band scope) ⊥ }
        ensures fault { IfErr result (λ fault. fault ≢ StoreFault.Conflict) }
    {
        if !self.stands_for(band, scope)? {
            return Err(StoreFault::Missing);
        }
        self.outside_transaction()?;
        match delete_rule(&mut self.conn, band, scope, rank) {
            Ok(_) => Ok(()),
            Err(_) => Err(StoreFault::Sql),
        }
    }
}
