//! The files of a Maildir with what is known of them: what was listed, where files were seen, and the one that is read.
ghost use Rattle.std.specs.{
  List.HoldsAt,
  Prelude.{◌≡◌, ◌==◌, ◌≤◌, ◌<◌, ◌+◌, ◌^◌, if◌then◌else◌, [], None, false, length, map, vec_len, IfOk},
};
ghost use Rattle.mail_terms.specs.Distinct.{AreDistinct};
ghost use Rattle.folder_drop.specs.{
  declared.folders_look.FoldersLook.FoldersLook,
  FilesMail.{Knows, ListsFiles, ListsNames, TakesSlot},
  FoldersLook.IsUnchanged,
  MaildirMail.{IsWholeText, slots_of},
  MailFiles.Stays,
  OpenText.IsTextPart,
  RealMaildir.uid_of,
};

use crate::listing::DropListing;
use crate::mail_files::MailFiles;
use crate::maildir_drop::OpenText;
use crate::maildir_drop::listing::list_anew;
use crate::maildir_drop::texts::{missing, part_at, read_at, remove_at};
use crate::removal::TwoMessages;
use crate::seen_files::SeenFiles;
use pop3_server::{Entry, MAX_COUNT};
use std::{io, mem};

/// The last listing, or the one before it if it lists nothing.
fn newer(last: DropListing, earlier: DropListing) -> DropListing
    ensures { result ≡ (if length last.files == 0 then earlier else last) }
{
    if last.files().is_empty() {
        earlier
    } else {
        last
    }
}

/// The files of a Maildir, and what is known of them.
#[derive(Drop)]
pub(crate) struct KnownMail<D: MailFiles> {
    pub(crate) files: D,
    pub(crate) listing: DropListing,
    /// An earlier server's listing, until this one has its own.
    pub(crate) earlier: DropListing,
    /// Where files were last seen, for those that aren't where they were listed.
    pub(crate) seen: SeenFiles,
    /// Where they were seen since removals began.
    pub(crate) since: SeenFiles,
    /// The file that was last read in part.
    pub(crate) reading: Option<OpenText<D::File>>,
}

impl<D: MailFiles> KnownMail<D> {
    /// Of these files nothing is listed yet.
    pub(crate) fn of(files: D) -> KnownMail<D>
        ensures files { result.files ≡ files }
        ensures listing { (result.listing.files ≡ [])
            × ((later : FoldersLook) → IsUnchanged result.listing.look later → ⊥) }
        ensures earlier { (result.earlier.files ≡ [])
            × ((later : FoldersLook) → IsUnchanged result.earlier.look later → ⊥) }
        ensures rest { (result.since.are_removed ≡ false) × (result.reading ≡ None) }
    {
        let alloc = files.alloc();
        KnownMail {
            files,
            listing: DropListing::none(alloc),
            earlier: DropListing::none(alloc),
            seen: SeenFiles::none(),
            since: SeenFiles::none(),
            reading: None,
        }
    }

    /// The same files for another server, of which it knows an earlier listing.
    pub(crate) fn renewed(self) -> KnownMail<D>
        ensures stays { Stays D.path D.looked self.files result.files }
        ensures listing { result.listing.files ≡ [] }
        ensures knows { D.sound result.files → D.sound self.files
            × (Knows D.File.remaining (D.files self.files) (D.looked self.files) self.listing self.earlier self.since
            self.reading → Knows D.File.remaining (D.files result.files) (D.looked result.files) result.listing
            result.earlier result.since result.reading) }
    {
        let KnownMail {
            mut files,
            listing,
            earlier,
            ..
        } = self;
        files.close();
        let mut known = KnownMail::of(files);
        known.earlier = newer(listing, earlier);
        known
    }

    /// Whether the removals of a session have begun.
    pub(crate) fn are_removed(&self) -> bool
        ensures { result ≡ self.now.since.are_removed }
    {
        self.since.are_removed()
    }

    /// Lists the messages of the Maildir as it is now: those of the earlier listing, if it is still valid.
    pub(crate) fn list_messages(&mut self) -> io::Result<Vec<Entry>>
        ensures within { IfOk result (λ entries. vec_len entries ≤ MAX_COUNT) }
        ensures distinct { IfOk result (λ entries. AreDistinct (map uid_of entries.items)) }
        ensures names { ListsNames self.old.listing.files result self.new.listing.files }
        ensures stays { Stays D.path D.looked self.old.files self.new.files }
        ensures lists { D.sound self.new.files → D.sound self.old.files
            × (D.files self.new.files ≡ D.files self.old.files)
            × (Knows D.File.remaining (D.files self.old.files) (D.looked self.old.files) self.old.listing
            self.old.earlier
            self.old.since self.old.reading → Knows D.File.remaining (D.files self.new.files) (D.looked self.new.files)
            self.new.listing self.new.earlier self.new.since self.new.reading
            × ListsFiles (D.files self.new.files) result self.new.listing.files) }
    {
        let mut seen = SeenFiles::none();
        list_anew(&mut self.files, &mut seen, &mut self.earlier)?;
        let alloc = self.files.alloc();
        let entries = self.earlier.entries(alloc)?;
        self.listing = mem::replace(&mut self.earlier, DropListing::none(alloc));
        self.seen = seen;
        self.reading = None;
        Ok(entries)
    }

    /// The octets of the file at a place of the last listing.
    pub(crate) fn read_file(&mut self, i: usize) -> io::Result<Vec<u8>>
        ensures same { self.new ≡ record self.old { seen = self.new.seen } }
        ensures within { IfOk result (λ _. i < length self.old.listing.files) }
        ensures own { D.sound self.old.files → Knows D.File.remaining (D.files self.old.files) (D.looked self.old.files)
            self.old.listing self.old.earlier self.old.since self.old.reading → IfOk result (λ text. HoldsAt (λ listed.
            IsWholeText (D.files self.old.files) listed text.items) self.old.listing.files i) }
    {
        let text = read_at(&self.files, &mut self.seen, self.listing.files(), i)?;
        Ok(text)
    }

    /// Reads a part of the file at a place. The file stays open until its end is read, so that all parts are of the
    /// same file.
    pub(crate) fn read_part(
        &mut self,
        i: usize,
        start: usize,
        piece: &mut [u8],
    ) -> io::Result<usize>
        requires { 0 < length piece.old }
        ensures same { self.new ≡ record self.old { seen = self.new.seen; reading = self.new.reading } }
        ensures within { IfOk result (λ n. (n ≤ length piece.new) × (i < length self.old.listing.files)) }
        ensures countable { IfOk result (λ n. start + n < 2 ^ 64) }
        ensures own { D.sound self.old.files → Knows D.File.remaining (D.files self.old.files) (D.looked self.old.files)
            self.old.listing self.old.earlier self.old.since self.old.reading → Knows D.File.remaining
            (D.files self.old.files) (D.looked self.old.files) self.old.listing self.old.earlier self.old.since
            self.new.reading
            × IfOk result (λ n. HoldsAt (λ listed. IsTextPart (D.files self.old.files) listed start n piece.new)
            self.old.listing.files i) }
    {
        let listing = self.listing.files();
        if i >= listing.len() {
            return Err(missing());
        }
        let kept = self.reading.take();
        let read = part_at(
            &self.files,
            &mut self.seen,
            listing,
            kept,
            (i, start),
            piece,
        )?;
        self.reading = read.1;
        Ok(read.0)
    }

    /// Removes the file at a place of the last listing, and each other one with its base, unless one of them is another
    /// message: then both are told.
    pub(crate) fn remove_file(&mut self, i: usize) -> io::Result<Option<TwoMessages>>
        ensures same { self.new.listing ≡ self.old.listing }
        ensures stays { Stays D.path D.looked self.old.files self.new.files }
        ensures takes { D.sound self.new.files → D.sound self.old.files
            × (Knows D.File.remaining (D.files self.old.files) (D.looked self.old.files) self.old.listing
            self.old.earlier
            self.old.since self.old.reading → Knows D.File.remaining (D.files self.new.files) (D.looked self.new.files)
            self.new.listing self.new.earlier self.new.since self.new.reading
            × TakesSlot (slots_of (D.files self.old.files) self.old.listing.files) i result
            (slots_of (D.files self.new.files) self.old.listing.files)) }
    {
        self.reading = None;
        self.seen = SeenFiles::none();
        remove_at(&mut self.files, &mut self.since, self.listing.files(), i)
    }
}
