//! Lists of likely subtags (`likelySubtags.xml`), written by `locale_texts.py` of the tests from CLDR's data.

/// Languages, a region or nothing, and the script that is likely there.
pub(crate) const LIKELY_SCRIPTS: &str = "\
aa  Latn aai  Latn aak  Latn aau  Latn ab  Cyrl abi  Latn abq  Cyrl abr  Latn abt  Latn aby  Latn \
acd  Latn ace  Latn ach  Latn ada  Latn ade  Latn adj  Latn adp  Tibt ady  Cyrl adz  Latn ae  Avst \
aeb  Arab aey  Latn af  Latn agc  Latn agd  Latn agg  Latn agm  Latn ago  Latn agq  Latn aha  Latn \
ahl  Latn aho  Ahom ajg  Latn ak  Latn akk  Xsux ala  Latn ali  Latn aln  Latn alt  Cyrl am  Ethi \
amm  Latn amn  Latn amo  Latn amp  Latn an  Latn anc  Latn ank  Latn ann  Latn any  Latn aoj  Latn \
aom  Latn aoz  Latn apc  Arab apd  Arab ape  Latn apr  Latn aps  Latn apz  Latn ar  Arab arc  Armi \
arh  Latn arn  Latn aro  Latn arq  Arab ars  Arab ary  Arab arz  Arab as  Beng asa  Latn ase  Sgnw \
asg  Latn aso  Latn ast  Latn ata  Latn atg  Latn atj  Latn auy  Latn av  Cyrl avl  Arab avn  Latn \
avt  Latn avu  Latn awa  Deva awb  Latn awo  Latn awx  Latn ay  Latn ayb  Latn az  Latn az IQ Arab \
az IR Arab az RU Cyrl ba  Cyrl bal  Arab ban  Latn bap  Deva bar  Latn bas  Latn bav  Latn \
bax  Bamu bba  Latn bbb  Latn bbc  Latn bbd  Latn bbj  Latn bbp  Latn bbr  Latn bcf  Latn bch  Latn \
bci  Latn bcm  Latn bcn  Latn bco  Latn bcq  Ethi bcu  Latn bdd  Latn be  Cyrl bef  Latn beh  Latn \
bej  Arab bem  Latn bet  Latn bew  Latn bex  Latn bez  Latn bfd  Latn bfq  Taml bft  Arab bfy  Deva \
bg  Cyrl bgc  Deva bgn  Arab bgx  Grek bhb  Deva bhg  Latn bhi  Deva bhl  Latn bho  Deva bhy  Latn \
bi  Latn bib  Latn big  Latn bik  Latn bim  Latn bin  Latn bio  Latn biq  Latn bjh  Latn bji  Ethi \
bjj  Deva bjn  Latn bjo  Latn bjr  Latn bjt  Latn bjz  Latn bkc  Latn bkm  Latn bkq  Latn bku  Latn \
bkv  Latn bla  Latn blg  Latn blt  Tavt bm  Latn bmh  Latn bmk  Latn bmq  Latn bmu  Latn bn  Beng \
bng  Latn bnm  Latn bnp  Latn bo  Tibt boj  Latn bom  Latn bon  Latn bpy  Beng bqc  Latn bqi  Arab \
bqp  Latn bqv  Latn br  Latn bra  Deva brh  Arab brx  Deva brz  Latn bs  Latn bsj  Latn bsq  Bass \
bss  Latn bst  Ethi bto  Latn btt  Latn btv  Deva bua  Cyrl buc  Latn bud  Latn bug  Latn buk  Latn \
bum  Latn buo  Latn bus  Latn buu  Latn bvb  Latn bwd  Latn bwr  Latn bxh  Latn bye  Latn byn  Ethi \
byr  Latn bys  Latn byv  Latn byx  Latn bza  Latn bze  Latn bzf  Latn bzh  Latn bzw  Latn ca  Latn \
cad  Latn can  Latn cbj  Latn cch  Latn ccp  Cakm ce  Cyrl ceb  Latn cfa  Latn cgg  Latn ch  Latn \
chk  Latn chm  Cyrl cho  Latn chp  Latn chr  Cher cic  Latn cja  Arab cjm  Cham cjv  Latn ckb  Arab \
ckl  Latn cko  Latn cky  Latn cla  Latn clc  Latn cme  Latn cmg  Soyo co  Latn cop  Copt cps  Latn \
cr  Cans crg  Latn crh  Cyrl crk  Cans crl  Cans crs  Latn cs  Latn csb  Latn csw  Cans ctd  Pauc \
cu  Cyrl cv  Cyrl cy  Latn da  Latn dad  Latn daf  Latn dag  Latn dah  Latn dak  Latn dar  Cyrl \
dav  Latn dbd  Latn dbq  Latn dcc  Arab ddn  Latn de  Latn ded  Latn den  Latn dga  Latn dgh  Latn \
dgi  Latn dgl  Arab dgr  Latn dgz  Latn dia  Latn dje  Latn dmf  Medf dnj  Latn dob  Latn doi  Deva \
dop  Latn dow  Latn drh  Mong dri  Latn drs  Ethi dsb  Latn dtm  Latn dtp  Latn dts  Latn dty  Deva \
dua  Latn duc  Latn dud  Latn dug  Latn dv  Thaa dva  Latn dww  Latn dyo  Latn dyu  Latn dz  Tibt \
dzg  Latn ebu  Latn ee  Latn efi  Latn egl  Latn egy  Egyp eka  Latn eky  Kali el  Grek ema  Latn \
emi  Latn en  Latn enn  Latn enq  Latn eo  Latn eri  Latn es  Latn esg  Gonm esu  Latn et  Latn \
etr  Latn ett  Ital etu  Latn etx  Latn eu  Latn ewo  Latn ext  Latn eza  Latn fa  Arab faa  Latn \
fab  Latn fag  Latn fai  Latn fan  Latn ff  Latn ffi  Latn ffm  Latn fi  Latn fia  Arab fil  Latn \
fit  Latn fj  Latn flr  Latn fmp  Latn fo  Latn fod  Latn fon  Latn for  Latn fpe  Latn fqs  Latn \
fr  Latn frc  Latn frp  Latn frr  Latn frs  Latn fub  Arab fud  Latn fue  Latn fuf  Latn fuh  Latn \
fuq  Latn fur  Latn fuv  Latn fuy  Latn fvr  Latn fy  Latn ga  Latn gaa  Latn gaf  Latn gag  Latn \
gah  Latn gaj  Latn gam  Latn gan  Hans gaw  Latn gay  Latn gba  Latn gbf  Latn gbm  Deva gby  Latn \
gbz  Arab gcr  Latn gd  Latn gde  Latn gdn  Latn gdr  Latn geb  Latn gej  Latn gel  Latn gez  Ethi \
gfk  Latn ggn  Deva ghs  Latn gil  Latn gim  Latn gjk  Arab gjn  Latn gju  Arab gkn  Latn gkp  Latn \
gl  Latn glk  Arab gmm  Latn gmv  Ethi gn  Latn gnd  Latn gng  Latn god  Latn gof  Ethi goi  Latn \
gom  Deva gon  Telu gor  Latn gos  Latn got  Goth grb  Latn grc  Cprt grt  Beng grw  Latn gsw  Latn \
gu  Gujr gub  Latn guc  Latn gud  Latn gur  Latn guw  Latn gux  Latn guz  Latn gv  Latn gvf  Latn \
gvr  Deva gvs  Latn gwc  Arab gwi  Latn gwt  Arab gyi  Latn ha  Latn ha CM Arab ha SD Arab \
hag  Latn hak  Hans ham  Latn haw  Latn haz  Arab hbb  Latn hdy  Ethi he  Hebr hhy  Latn hi  Deva \
hia  Latn hif  Latn hig  Latn hih  Latn hil  Latn hla  Latn hlu  Hluw hmd  Plrd hmt  Latn hnd  Arab \
hne  Deva hnj  Hmnp hnn  Latn hno  Arab ho  Latn hoc  Deva hoj  Deva hot  Latn hr  Latn hsb  Latn \
hsn  Hans ht  Latn hu  Latn hui  Latn hur  Latn hy  Armn hz  Latn ia  Latn ian  Latn iar  Latn \
iba  Latn ibb  Latn iby  Latn ica  Latn ich  Latn id  Latn idd  Latn idi  Latn idu  Latn ife  Latn \
ig  Latn igb  Latn ige  Latn ii  Yiii ijj  Latn ik  Latn ikk  Latn ikw  Latn ikx  Latn ilo  Latn \
imo  Latn in  Latn inh  Cyrl io  Latn iou  Latn iri  Latn is  Latn it  Latn iu  Cans iw  Hebr \
iwm  Latn iws  Latn izh  Latn izi  Latn ja  Jpan jab  Latn jam  Latn jar  Latn jbo  Latn jbu  Latn \
jen  Latn jgk  Latn jgo  Latn ji  Hebr jib  Latn jmc  Latn jml  Deva jra  Latn jut  Latn jv  Latn \
jw  Latn ka  Geor kaa  Cyrl kab  Latn kac  Latn kad  Latn kai  Latn kaj  Latn kam  Latn kao  Latn \
kaw  Kawi kbd  Cyrl kbm  Latn kbp  Latn kbq  Latn kbx  Latn kby  Arab kcg  Latn kck  Latn kcl  Latn \
kct  Latn kde  Latn kdh  Latn kdl  Latn kdt  Thai kea  Latn ken  Latn kez  Latn kfo  Latn kfr  Deva \
kfy  Deva kg  Latn kge  Latn kgf  Latn kgp  Latn kha  Latn khb  Talu khn  Deva khq  Latn khs  Latn \
kht  Mymr khw  Arab khz  Latn ki  Latn kij  Latn kiu  Latn kiw  Latn kj  Latn kjd  Latn kjg  Laoo \
kjs  Latn kjy  Latn kk  Cyrl kk AF Arab kk CN Arab kk IR Arab kk MN Arab kkc  Latn kkj  Latn \
kl  Latn kln  Latn klq  Latn klt  Latn klx  Latn km  Khmr kmb  Latn kmh  Latn kmo  Latn kms  Latn \
kmu  Latn kmw  Latn kn  Knda knf  Latn knp  Latn ko  Kore koi  Cyrl kok  Deva kol  Latn kos  Latn \
koz  Latn kpe  Latn kpf  Latn kpo  Latn kpr  Latn kpx  Latn kqb  Latn kqf  Latn kqs  Latn kqy  Ethi \
kr  Latn krc  Cyrl kri  Latn krj  Latn krl  Latn krs  Latn kru  Deva ks  Arab ksb  Latn ksd  Latn \
ksf  Latn ksh  Latn ksj  Latn ksr  Latn ktb  Ethi ktm  Latn kto  Latn ktr  Latn ku  Latn ku LB Arab \
kub  Latn kud  Latn kue  Latn kuj  Latn kum  Cyrl kun  Latn kup  Latn kus  Latn kv  Cyrl kvg  Latn \
kvr  Latn kvx  Arab kw  Latn kwj  Latn kwk  Latn kwo  Latn kwq  Latn kxa  Latn kxc  Ethi kxe  Latn \
kxl  Deva kxm  Thai kxp  Arab kxw  Latn kxz  Latn ky  Cyrl ky CN Arab ky TR Latn kye  Latn \
kyx  Latn kzh  Arab kzj  Latn kzr  Latn kzt  Latn la  Latn lab  Lina lad  Hebr lag  Latn lah  Arab \
laj  Latn las  Latn lb  Latn lbe  Cyrl lbu  Latn lbw  Latn lcm  Latn lcp  Thai ldb  Latn led  Latn \
lee  Latn lem  Latn lep  Lepc leq  Latn leu  Latn lez  Cyrl lg  Latn lgg  Latn li  Latn lia  Latn \
lid  Latn lif  Deva lig  Latn lih  Latn lij  Latn lil  Latn lis  Lisu ljp  Latn lki  Arab lkt  Latn \
lle  Latn lln  Latn lmn  Telu lmo  Latn lmp  Latn ln  Latn lns  Latn lnu  Latn lo  Laoo loj  Latn \
lok  Latn lol  Latn lor  Latn los  Latn loz  Latn lrc  Arab lt  Latn ltg  Latn lu  Latn lua  Latn \
luo  Latn luy  Latn luz  Arab lv  Latn lwl  Thai lzh  Hans lzz  Latn mad  Latn maf  Latn mag  Deva \
mai  Deva mak  Latn man  Latn man GN Nkoo mas  Latn maw  Latn maz  Latn mbh  Latn mbo  Latn \
mbq  Latn mbu  Latn mbw  Latn mci  Latn mcp  Latn mcq  Latn mcr  Latn mcu  Latn mda  Latn mde  Arab \
mdf  Cyrl mdh  Latn mdj  Latn mdr  Latn mdx  Ethi med  Latn mee  Latn mek  Latn men  Latn mer  Latn \
met  Latn meu  Latn mfa  Arab mfe  Latn mfn  Latn mfo  Latn mfq  Latn mg  Latn mgh  Latn mgl  Latn \
mgo  Latn mgp  Deva mgy  Latn mh  Latn mhi  Latn mhl  Latn mi  Latn mic  Latn mif  Latn min  Latn \
miw  Latn mk  Cyrl mki  Arab mkl  Latn mkp  Latn mkw  Latn ml  Mlym mle  Latn mlp  Latn mls  Latn \
mmo  Latn mmu  Latn mmx  Latn mn  Cyrl mn CN Mong mna  Latn mnf  Latn mni  Beng mnw  Mymr mo  Latn \
moa  Latn moe  Latn moh  Latn mos  Latn mox  Latn mpp  Latn mps  Latn mpt  Latn mpx  Latn mql  Latn \
mr  Deva mrd  Deva mrj  Cyrl mro  Mroo ms  Latn ms CC Arab mt  Latn mtc  Latn mtf  Latn mti  Latn \
mtr  Deva mua  Latn mur  Latn mus  Latn mva  Latn mvn  Latn mvy  Arab mwk  Latn mwr  Deva mwv  Latn \
mww  Hmnp mxc  Latn mxm  Latn my  Mymr myk  Latn mym  Ethi myv  Cyrl myw  Latn myx  Latn myz  Mand \
mzk  Latn mzm  Latn mzn  Arab mzp  Latn mzw  Latn mzz  Latn na  Latn nac  Latn naf  Latn nak  Latn \
nan  Hans nap  Latn naq  Latn nas  Latn nb  Latn nca  Latn nce  Latn ncf  Latn nch  Latn nco  Latn \
ncu  Latn nd  Latn ndc  Latn nds  Latn ne  Deva neb  Latn new  Deva nex  Latn nfr  Latn ng  Latn \
nga  Latn ngb  Latn ngl  Latn nhb  Latn nhe  Latn nhw  Latn nif  Latn nii  Latn nij  Latn nin  Latn \
niu  Latn niy  Latn niz  Latn njo  Latn nkg  Latn nko  Latn nl  Latn nmg  Latn nmz  Latn nn  Latn \
nnf  Latn nnh  Latn nnk  Latn nnm  Latn nnp  Wcho no  Latn nod  Lana noe  Deva non  Runr nop  Latn \
nou  Latn nqo  Nkoo nr  Latn nrb  Latn nsk  Cans nsn  Latn nso  Latn nss  Latn nst  Tnsa ntm  Latn \
ntr  Latn nui  Latn nup  Latn nus  Latn nuv  Latn nux  Latn nv  Latn nwb  Latn nxq  Latn nxr  Latn \
ny  Latn nym  Latn nyn  Latn nzi  Latn oc  Latn ogc  Latn oj  Cans ojs  Cans oka  Latn okr  Latn \
okv  Latn om  Latn ong  Latn onn  Latn ons  Latn opm  Latn or  Orya oro  Latn oru  Arab os  Cyrl \
osa  Osge ota  Arab otk  Orkh oui  Ougr ozm  Latn pa  Guru pa PK Arab pag  Latn pal  Phli pam  Latn \
pap  Latn pau  Latn pbi  Latn pcd  Latn pcm  Latn pdc  Latn pdt  Latn ped  Latn peo  Xpeo pex  Latn \
pfl  Latn phl  Arab phn  Phnx pil  Latn pip  Latn pka  Brah pko  Latn pl  Latn pla  Latn pms  Latn \
png  Latn pnn  Latn pnt  Grek pon  Latn ppa  Deva ppo  Latn pqm  Latn pra  Khar prd  Arab prg  Latn \
ps  Arab pss  Latn pt  Latn ptp  Latn puu  Latn pwa  Latn qu  Latn quc  Latn qug  Latn rai  Latn \
raj  Deva rao  Latn rcf  Latn rej  Latn rel  Latn res  Latn rgn  Latn rhg  Rohg ria  Latn rif  Tfng \
rif NL Latn rjs  Deva rkt  Beng rm  Latn rmf  Latn rmo  Latn rmt  Arab rmu  Latn rn  Latn rna  Latn \
rng  Latn ro  Latn rob  Latn rof  Latn roo  Latn rro  Latn rtm  Latn ru  Cyrl rue  Cyrl rug  Latn \
rw  Latn rwk  Latn rwo  Latn ryu  Kana sa  Deva saf  Latn sah  Cyrl saq  Latn sas  Latn sat  Olck \
sav  Latn saz  Saur sba  Latn sbe  Latn sbp  Latn sc  Latn sck  Deva scl  Arab scn  Latn sco  Latn \
sd  Arab sd IN Deva sdc  Latn sdh  Arab se  Latn sef  Latn seh  Latn sei  Latn ses  Latn sg  Latn \
sga  Ogam sgs  Latn sgw  Ethi sgz  Latn shi  Tfng shk  Latn shn  Mymr shu  Arab si  Sinh sid  Latn \
sig  Latn sil  Latn sim  Latn sjr  Latn sk  Latn skc  Latn skr  Arab sks  Latn sl  Latn sld  Latn \
sli  Latn sll  Latn sly  Latn sm  Latn sma  Latn smj  Latn smn  Latn smp  Samr smq  Latn sms  Latn \
sn  Latn snc  Latn snk  Latn snp  Latn snx  Latn sny  Latn so  Latn sog  Sogd sok  Latn soq  Latn \
sou  Thai soy  Latn spd  Latn spl  Latn sps  Latn sq  Latn sr  Cyrl sr ME Latn sr RO Latn \
sr RU Latn sr TR Latn srb  Sora srn  Latn srr  Latn srx  Deva ss  Latn ssd  Latn ssg  Latn \
ssy  Latn st  Latn stk  Latn stq  Latn su  Latn sua  Latn sue  Latn suk  Latn sur  Latn sus  Latn \
sv  Latn sw  Latn swb  Arab swc  Latn swg  Latn swp  Latn swv  Deva sxn  Latn sxw  Latn syl  Beng \
syr  Syrc szl  Latn ta  Taml taj  Deva tal  Latn tan  Latn taq  Latn tbc  Latn tbd  Latn tbf  Latn \
tbg  Latn tbo  Latn tbw  Latn tbz  Latn tci  Latn tcy  Knda tdd  Tale tdg  Deva tdh  Deva tdu  Latn \
te  Telu ted  Latn tem  Latn teo  Latn tet  Latn tfi  Latn tg  Cyrl tg PK Arab tgc  Latn tgo  Latn \
tgu  Latn th  Thai thl  Deva thq  Deva thr  Deva ti  Ethi tif  Latn tig  Ethi tik  Latn tim  Latn \
tio  Latn tiv  Latn tk  Latn tkl  Latn tkr  Latn tkt  Deva tl  Latn tlf  Latn tlx  Latn tly  Latn \
tmh  Latn tmy  Latn tn  Latn tnh  Latn to  Latn tof  Latn tog  Latn toq  Latn tpi  Latn tpm  Latn \
tpz  Latn tqo  Latn tr  Latn tru  Latn trv  Latn trw  Arab ts  Latn tsd  Grek tsf  Deva tsg  Latn \
tsj  Tibt tsw  Latn tt  Cyrl ttd  Latn tte  Latn ttj  Latn ttr  Latn tts  Thai ttt  Latn tuh  Latn \
tul  Latn tum  Latn tuq  Latn tvd  Latn tvl  Latn tvu  Latn twh  Latn twq  Latn txg  Tang txo  Toto \
ty  Latn tya  Latn tyv  Cyrl tzm  Latn ubu  Latn udi  Aghb udm  Cyrl ug  Arab ug KZ Cyrl ug MN Cyrl \
uga  Ugar uk  Cyrl uli  Latn umb  Latn unr  Beng unr NP Deva unx  Beng uok  Latn ur  Arab uri  Latn \
urt  Latn urw  Latn usa  Latn uth  Latn utr  Latn uvh  Latn uvl  Latn uz  Latn uz AF Arab \
uz CN Cyrl vag  Latn vai  Vaii van  Latn ve  Latn vec  Latn vep  Latn vi  Latn vic  Latn viv  Latn \
vls  Latn vmf  Latn vmw  Latn vo  Latn vot  Latn vro  Latn vun  Latn vut  Latn wa  Latn wae  Latn \
waj  Latn wal  Ethi wan  Latn war  Latn wbp  Latn wbq  Telu wbr  Deva wci  Latn wer  Latn wgi  Latn \
whg  Latn wib  Latn wiu  Latn wiv  Latn wja  Latn wji  Latn wls  Latn wmo  Latn wnc  Latn wni  Arab \
wnu  Latn wo  Latn wob  Latn wos  Latn wrs  Latn wsg  Gong wsk  Latn wtm  Deva wuu  Hans wuv  Latn \
wwa  Latn xav  Latn xbi  Latn xco  Chrs xcr  Cari xes  Latn xh  Latn xla  Latn xlc  Lyci xld  Lydi \
xmf  Geor xmn  Mani xmr  Merc xna  Narb xnr  Deva xog  Latn xon  Latn xpr  Prti xrb  Latn xsa  Sarb \
xsi  Latn xsm  Latn xsr  Deva xwe  Latn yam  Latn yao  Latn yap  Latn yas  Latn yat  Latn yav  Latn \
yay  Latn yaz  Latn yba  Latn ybb  Latn yby  Latn yer  Latn ygr  Latn ygw  Latn yi  Hebr yko  Latn \
yle  Latn ylg  Latn yll  Latn yml  Latn yo  Latn yon  Latn yrb  Latn yre  Latn yrl  Latn yss  Latn \
yua  Latn yue  Hant yue CN Hans yuj  Latn yut  Latn yuw  Latn za  Latn zag  Latn zdj  Arab \
zea  Latn zgh  Tfng zh  Hans zh AU Hant zh BN Hant zh GB Hant zh GF Hant zh HK Hant zh ID Hant \
zh MO Hant zh PA Hant zh PF Hant zh PH Hant zh SR Hant zh TH Hant zh TW Hant zh US Hant zh VN Hant \
zhx  Nshu zia  Latn zkt  Kits zlm  Latn zmi  Latn zne  Latn zu  Latn zza  Latn";

/// Languages, a script or nothing, and the likely region, if it is one of several that replace an old one.
pub(crate) const LIKELY_REGIONS: &str = "\
ab  GE ady  RU akk  IQ alt  RU ars  SA av  RU az  AZ az Arab IR ba  RU be  BY bs  BA bua  RU ce  RU \
chk  FM chm  RU ckb  IQ crh  UA cs  CZ cu  RU cu Glag BG cv  RU dar  RU et  EE gag  MD got  UA \
hr  HR hy  AM inh  RU izh  RU ji  UA ka  GE kaa  UZ kbd  RU kk  KZ kk Arab CN koi  RU kos  FM \
krc  RU krl  RU ku Arab IQ ku Yezi GE kum  RU kv  RU ky  KG ky Arab CN ky Latn TR lbe  RU lez  RU \
lt  LT ltg  LV lv  LV mdf  RU mh  MH mk  MK mrj  RU myv  RU os  GE oui  143 pau  PW pon  FM ru  RU \
rue  UA sah  RU sgs  LT sk  SK sl  SI sog  UZ sr  RS syr  IQ tg  TJ tg Arab PK tk  TM tkr  AZ \
tly  AZ tt  RU ttt  AZ tyv  RU udi  RU udm  RU ug Cyrl KZ uk  UA uli  FM uz  UZ uz Arab AF vep  RU \
vic  SX vot  RU vro  EE xco  UZ xmf  GE xna  SA yap  FM";
